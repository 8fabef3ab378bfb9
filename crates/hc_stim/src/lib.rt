//! What is run clock by clock: a bench takes a number for each input, and gives one for each output. The stimulus that
//! it takes is read from a text, and the trace of what it gives is written as one.
#![tactic(auto)]

mod bench;
mod laws;
mod line;
mod number;
mod stim;
mod trace;

pub use bench::{Bench, Tick};
pub use laws::{never_both, one_bad_line, one_stim};
pub use stim::{Stim, StimErr, Widths, read_stim};
pub use trace::{Names, write_header, write_line};
