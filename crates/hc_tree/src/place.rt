/// A place in a source: its line and its column in bytes, both counted from 1. A line ends with a line feed.
#[derive(Clone, Copy, Debug, PartialEq, Eq)]
pub struct Place {
    pub line: u32,
    pub column: u32,
}
