ghost use Rattle.std.specs.Prelude.{◌≡◌, ◌++◌, ◌∷◌, ◌↔◌, [], List, IsTrue, OnOk, OnErr, Contains};
ghost use Rattle.hc_outside.specs.declared.file_id.FileId.{FileId};

use crate::file_id::FileId;
use std::alloc::Global;
use std::io;
use std::marker::Model;

/// Files that a store must not write over: those that it loaded, and those that it wrote.
#[derive(Drop)]
pub(crate) struct KeptFiles {
    ids: Vec<FileId>,
}

impl Model for KeptFiles {
    ghost Value = { List FileId };

    ghost view = { λ s. s.ids.items };
}

impl KeptFiles {
    /// None of them yet.
    pub(crate) fn new(alloc: Global) -> KeptFiles
        ensures { result ≡ [] }
    {
        KeptFiles {
            ids: Vec::new(alloc),
        }
    }

    /// Takes the memory for one more, so that the next `add` needs none.
    pub(crate) fn make_room(&mut self) -> io::Result<()>
        ensures { self.new ≡ self.old }
    {
        Ok(self.ids.reserve(1)?)
    }

    /// Adds one. The error is want of memory.
    pub(crate) fn add(&mut self, id: FileId) -> io::Result<()>
        ensures ok { OnOk result (self.new ≡ self.old ++ id ∷ []) }
        ensures err { OnErr result (self.new ≡ self.old) }
    {
        Ok(self.ids.push(id)?)
    }

    /// Whether it is one of them.
    pub(crate) fn has(&self, id: FileId) -> bool
        ensures { IsTrue result ↔ Contains self.now id }
    {
        self.ids.contains(&id)
    }
}
