use crate::name::Name;
use crate::place::Place;
use sqlite_items::Items;

/// There wasn't enough memory.
#[derive(Clone, Copy, Debug, PartialEq, Eq)]
pub struct NoMemory;

/// The rules and limits that a source may break. They are this project's own.
#[derive(Clone, Copy, Debug, PartialEq, Eq)]
pub enum Rule {
    /// No token begins here.
    S1,
    /// No tree spells the tokens.
    S2,
    /// A word of the language that this profile leaves out.
    S3,
    /// A name, or the port of an interface, isn't declared.
    S4,
    /// A name is declared twice in one scope, or `main`, `set clock` or the `data` of an interface stands twice.
    S5,
    /// A name is of a kind that can't stand here.
    S6,
    /// A wrong number of arguments, of pins or of initial values.
    S7,
    /// A constant is wanted, and the expression has none.
    S8,
    /// Two widths differ.
    S9,
    /// Two signs differ, or a sign isn't the one that the operator needs.
    S10,
    /// A constant doesn't fit.
    S11,
    /// An operand or a right side has no width.
    S12,
    /// A width isn't in 1 to 128, or a length is below 1.
    S13,
    /// A bit range, take or drop is outside the operand.
    S14,
    /// An index has a wrong width or a sign, or a constant index is outside.
    S15,
    /// The body of a loop can take no clock.
    S16,
    /// A value within a clock depends on itself.
    S17,
    /// A channel stands in send cases and in receive cases of `prialt`.
    S18,
    /// A channel stands in two cases of one `prialt`.
    S19,
    /// A RAM or ROM is accessed twice in one action or condition.
    S20,
    /// A RAM or ROM stands in a case of `prialt` or in an output.
    S21,
    /// A value stands twice among the labels of one `switch`.
    S22,
    /// There is no `set clock`, or no `main`.
    S23,
    /// A RAM or ROM has more than 65,536 bits.
    S24,
    /// A name or text has more than 255 bytes.
    L1,
    /// There are more than 1,000,000 tokens.
    L2,
    /// Tokens are nested more than 200 deep.
    L3,
    /// A macro call stands within more than 200 calls.
    L4,
    /// More than 1,000,000 nodes are expanded.
    L5,
    /// More than 2,000 nodes are open around a node.
    L6,
    /// More than 65,535 objects are made.
    L7,
    /// The weight of the program is over 2,000,000.
    L8,
    /// An array has more than 4,096 elements.
    L9,
    /// A form that isn't built yet.
    NotBuilt,
}

/// What has a value within a clock, by the number of its object: the value of a signal, RAM or ROM, or the plain sends
/// or the plain receives of a channel.
#[derive(Clone, Copy, Debug, PartialEq, Eq)]
pub enum Node {
    Value(u32),
    Sends(u32),
    Receives(u32),
}

/// Nodes with the names of their objects.
pub type Nodes = Items<(Node, Name)>;

/// What a refusal says beside its rule and its place: a name, two numbers, or a cycle of nodes.
#[derive(Debug, Drop)]
pub enum Detail {
    Nothing,
    Name(Name),
    Pair(u128, u128),
    Cycle(Nodes),
}

/// Why a source is refused: the rule or limit that it breaks first, where, and what more there is to say.
#[derive(Debug, Drop)]
pub struct Refusal {
    pub rule: Rule,
    pub place: Place,
    pub detail: Detail,
}

/// Why a stage before the core program has no answer: the source is refused, or there wasn't enough memory.
#[derive(Debug, Drop)]
pub enum FrontErr {
    Refused(Refusal),
    NoMemory,
}
