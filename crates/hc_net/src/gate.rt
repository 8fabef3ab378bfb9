/// The kind of a gate. `Zero` and `One` have no input and `Not` has one; an input that a kind doesn't use is 0.
#[derive(Clone, Copy, Debug, PartialEq, Eq)]
pub enum GateKind {
    Zero,
    One,
    Not,
    And,
    Or,
    Xor,
}
