/// The names of the files of a check.
#[derive(Clone, Copy)]
pub struct CheckFiles<'a> {
    /// The parameters of the cluster.
    pub params: &'a str,
    /// What was recorded of it.
    pub trace: &'a str,
}
