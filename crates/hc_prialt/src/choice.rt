use hc_net::Nets;

/// The nets of a `prialt`.
#[derive(Debug, Drop)]
pub struct Pick {
    /// 1 in each clock in which the `prialt` stands: it starts in the clock, or it waits.
    pub active: u32,
    /// For each case, 1 in the clock in which it is taken.
    pub taken: Nets,
    /// 1 in the clock in which the default starts; never where there is none.
    pub default_start: u32,
    /// For each case, 1 in the clock in which its arm starts.
    pub arm_starts: Nets,
}
