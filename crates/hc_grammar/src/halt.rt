/// Why reading a form stopped.
#[derive(Clone, Copy, Debug, PartialEq, Eq)]
pub enum Halt {
    /// The token at the cursor, or the end, is refused. Where a reader keeps it, the number is how many of the tokens
    /// that it was called at are, taken alone, the longest whole form.
    Refused(Option<usize>),
    NoMemory,
}
