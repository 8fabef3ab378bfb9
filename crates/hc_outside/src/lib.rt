//! The outside of the compiler: files that are loaded and made, and places that bytes are written to, with counts of
//! their faults. Each is a trait, so that all above is proved for every one of them: for memory, which tells its bytes,
//! and for the real ones, which tell nothing.
#![tactic(auto)]

mod errors;
mod file_id;
mod file_store;
mod kept_files;
mod mem_file;
mod mem_files;
mod mem_sink;
mod mem_store;
mod open_file;
mod plan;
mod report;
mod sink;
mod std_sink;
mod store;
mod writes;

pub use errors::{Failed, LoadErr, NoMemory, StoreErr, WriteErr};
pub use file_store::FileStore;
pub use mem_sink::MemSink;
pub use mem_store::MemStore;
pub use open_file::OpenFile;
pub use sink::Sink;
pub use std_sink::StdSink;
pub use store::Store;
pub use writes::write_all;
