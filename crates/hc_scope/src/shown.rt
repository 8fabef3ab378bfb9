use hc_width::Value;

/// What an expression stands for before an index.
#[derive(Drop)]
pub enum Shown {
    /// A value.
    Value(Value),
    /// An array, RAM or ROM, by the number of its object.
    Memory(u32),
}
