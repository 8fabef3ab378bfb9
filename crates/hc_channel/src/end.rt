use hc_token::Ends;

/// The nets of an end of a channel, a send or a receive that is no case of a `prialt`.
#[derive(Clone, Copy, Debug)]
pub struct Offer {
    /// 1 in each clock in which the end stands: it starts in the clock, or it waits.
    pub active: u32,
    /// A placeholder of the greatest rank, whose driver says whether the other end stands.
    pub partner: u32,
    /// 1 in the clock in which both ends stand.
    pub done: u32,
    /// It is never passed, and finishes in the clock behind the one in which it is done.
    pub ends: Ends,
}
