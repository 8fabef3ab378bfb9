/// The rules of a valid netlist.
#[derive(Clone, Copy, Debug, PartialEq, Eq)]
pub enum Validity {
    /// Nets and names are there and are those given.
    V1,
    /// Each pin stands in one net, which its own driver drives alone.
    V2,
    /// A gate reads nets of smaller numbers alone, and so does a RAM's address.
    V3,
    /// A RAM has its sizes.
    V4,
    /// Ports have their sizes, and names differ.
    V5,
}

/// Why a netlist is not valid.
#[derive(Clone, Copy, Debug, PartialEq, Eq)]
pub enum ValidErr {
    /// This rule is the first of V1 to V5 that it breaks.
    Broken(Validity),
    /// There wasn't enough memory.
    NoMemory,
}

/// Why a text holds no netlist.
#[derive(Clone, Copy, Debug, PartialEq, Eq)]
pub enum TextErr {
    /// The bytes don't have the shape of a text. Lines and columns count from 1.
    NotText { line: u32, column: u32 },
    /// They have it, and this rule is the first of V1 to V5 that the netlist breaks.
    NotValid(Validity),
    /// There wasn't enough memory.
    NoMemory,
}
