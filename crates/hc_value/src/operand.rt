use hc_net::Nets;

/// Nets that hold a number in every clock, lowest bit first, and whether it has a sign.
#[derive(Drop)]
pub(crate) struct Operand {
    pub(crate) nets: Nets,
    pub(crate) signed: bool,
}
