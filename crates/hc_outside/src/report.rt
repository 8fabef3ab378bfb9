use crate::errors::StoreErr;
use std::io::{Error, ErrorKind};

/// What an error of the system is to the caller of a store. Unless memory was wanting, the file, what was tried with it
/// and the system's reason are said on standard error. Where that fails, nothing else is done.
pub(crate) fn refused<E: Eprint>(to: &E, name: &str, tried: &str, error: &Error) -> StoreErr {
    if error.kind() == ErrorKind::OutOfMemory {
        return StoreErr::NoMemory;
    }
    let _ = eprintln!(to; "hcc: {name} can't be {tried}: {error}");
    StoreErr::Failed
}
