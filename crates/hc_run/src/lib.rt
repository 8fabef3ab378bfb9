//! The jobs of `hcc`, and the top call; and by themselves the core of a source, and what it weighs.
#![tactic(auto)]

mod build_job;
mod cells;
mod check_job;
mod due;
mod edif;
mod laws;
mod refused;
mod source;
mod status;
mod text;
mod top;
mod weigh;
mod words;

pub use edif::write_edif;
pub use laws::{core_or_refusal, never_both, one_core, one_first_refusal};
pub use refused::refusal_line;
pub use source::{SOURCE_LIMIT, read_source};
pub use status::{Role, Status};
pub use top::hcc;
pub use weigh::weigh_source;
