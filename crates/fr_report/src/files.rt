/// The names of the files that decide a run.
#[derive(Clone, Copy)]
pub struct RunFiles<'a> {
    /// The parameters of the cluster.
    pub params: &'a str,
    /// Its oscillators and delays.
    pub drift: &'a str,
    /// What is done to its frames.
    pub script: &'a str,
}
