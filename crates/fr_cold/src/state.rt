/// What a coldstart node does, with the macrotick from which on it does so, counted from the begin of the run.
#[derive(Clone, Copy, Debug, PartialEq, Eq)]
pub enum ColdState {
    /// It is switched off.
    Off,
    /// It has heard nothing since this macrotick, and sends nothing (the coldstart listen state, section 7.2.4.3).
    Listening(u32),
    /// It sent the collision avoidance symbol at this macrotick, and sends startup frames until it hears
    /// something or the collisions are resolved (section 7.2.4.4).
    Resolving(u32),
    /// It sent the collision avoidance symbol at this macrotick, heard nothing in four cycles, and leads.
    Leading(u32),
}

/// How the power of a node is switched.
#[derive(Clone, Copy, Debug, PartialEq, Eq)]
pub enum Switch {
    /// Its power comes on.
    On,
    /// Its power goes off.
    Off,
}
