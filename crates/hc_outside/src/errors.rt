use thiserror::Error;

/// A call of the system failed.
#[derive(Debug, Drop, Error)]
#[error("failed")]
pub struct Failed;

/// No memory was left.
#[derive(Debug, Drop, Error)]
#[error("no memory is left")]
pub struct NoMemory;

/// Why a file was not loaded.
#[derive(Debug, Drop, Error)]
pub enum LoadErr {
    /// It could not be read, or there is none of that name.
    #[error("the file could not be read")]
    Failed,
    /// It has more bytes than the limit.
    #[error("the file is too long")]
    Longer,
    /// No memory was left.
    #[error("no memory is left")]
    NoMemory,
}

/// Why a call that writes did nothing.
#[derive(Debug, Drop, Error)]
pub enum StoreErr {
    /// The call of the system failed.
    #[error("the file could not be written")]
    Failed,
    /// No memory was left.
    #[error("no memory is left")]
    NoMemory,
}

/// Why a piece was not written whole.
#[derive(Debug, Drop, Error)]
pub enum WriteErr {
    /// A write failed.
    #[error("a write failed")]
    WriteFault,
    /// No memory was left.
    #[error("no memory is left")]
    NoMemory,
}
