use hc_net::Nets;

/// What the control of the statements so far has taken: the number of the next token's flip-flop, and the start of each action,
/// in text order.
#[derive(Debug, Drop)]
pub(crate) struct Started {
    pub(crate) next: u32,
    pub(crate) starts: Nets,
}
