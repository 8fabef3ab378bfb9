//! The words of the command line, and the job that they name.
#![tactic(auto)]

mod entries;
mod file_name;
mod job;
mod kind;
mod laws;
mod number;
mod parts;
mod said;
mod words;

pub use file_name::{FileName, NoMemory};
pub use job::Job;
pub use laws::one_job;
pub use words::{WordsErr, read_words};
