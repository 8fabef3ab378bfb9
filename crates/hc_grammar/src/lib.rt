//! The grammar of the language: `specs/Table.antt` says what any grammar reads and where it stops, `specs/Form.antt` and
//! the files of rules beside it are the grammar itself, and `specs/Answers.antt` says what a function that reads a form
//! answers.
#![tactic(auto)]

mod cursor;
mod halt;
mod kind;
mod laws;
mod order;

pub use cursor::Cursor;
pub use halt::Halt;
pub use kind::Kind;
pub use laws::{
    one_of_both, one_reading, one_stop, one_tree, read_or_stopped, reads_where, stops_where,
};
