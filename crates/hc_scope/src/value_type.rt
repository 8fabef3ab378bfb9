/// The type of a value.
#[derive(Clone, Copy, Debug)]
pub struct ValueType {
    /// The width in bits.
    pub width: u32,
    /// Whether it has a sign.
    pub signed: bool,
}
