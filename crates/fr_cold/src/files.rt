/// The names of the files that decide a startup.
#[derive(Clone, Copy)]
pub struct ColdFiles<'a> {
    /// The parameters of the cluster.
    pub params: &'a str,
    /// When each coldstart node is switched on and off.
    pub power: &'a str,
}
