ghost use Rattle.std.specs.Prelude.{◌≡◌, ◌++◌, ℕ, List, IfOk, OnOk, OnErr};
ghost use Rattle.hc_outside.specs.FilesLemmas.{same_name};

use crate::errors::NoMemory;
use std::alloc::Global;
use std::marker::Model;

/// A file in memory.
#[derive(Drop)]
pub(crate) struct MemFile {
    name: Vec<u8>,
    bytes: Vec<u8>,
}

impl Model for MemFile {
    ghost Value = { List ℕ × List ℕ };

    ghost view = { λ a. (a.name.items, a.bytes.items) };
}

impl MemFile {
    /// A file of that name, with these bytes.
    pub(crate) fn new(alloc: Global, name: &str, bytes: &[u8]) -> Result<MemFile, NoMemory>
        ensures { IfOk result (λ file. file ≡ (name.now, bytes.now)) }
    {
        match (
            Vec::from_slice(alloc, name.as_bytes()),
            Vec::from_slice(alloc, bytes),
        ) {
            (Ok(name), Ok(bytes)) => Ok(MemFile { name, bytes }),
            (_, _) => Err(NoMemory),
        }
    }

    /// Whether this is its name.
    pub(crate) fn is_named(&self, name: &str) -> bool
        ensures { result ≡ same_name name.now self.now.0 }
    {
        name.as_bytes() == self.name.as_slice()
    }

    /// What it holds.
    pub(crate) fn bytes(&self) -> &[u8]
        ensures { result.now ≡ self.now.1 }
    {
        self.bytes.as_slice()
    }

    /// Puts bytes at its end.
    pub(crate) fn append(&mut self, bytes: &[u8]) -> Result<(), NoMemory>
        ensures ok { OnOk result (self.new ≡ (self.old.0, self.old.1 ++ bytes.now)) }
        ensures err { OnErr result (self.new ≡ self.old) }
    {
        match self.bytes.extend_from_slice(bytes) {
            Ok(()) => Ok(()),
            Err(_) => Err(NoMemory),
        }
    }

    /// Puts bytes in the place of what it held.
    pub(crate) fn replace(&mut self, alloc: Global, bytes: &[u8]) -> Result<(), NoMemory>
        ensures ok { OnOk result (self.new ≡ (self.old.0, bytes.now)) }
        ensures err { OnErr result (self.new ≡ self.old) }
    {
        match Vec::from_slice(alloc, bytes) {
            Ok(copy) => {
                self.bytes = copy;
                Ok(())
            }
            Err(_) => Err(NoMemory),
        }
    }
}
