ghost use Rattle.std.specs.Prelude.{◌≡◌, IfOk};
ghost use Rattle.hc_net.specs.Label.{IsLabel};

use crate::nets::NoMemory;
use std::alloc::Global;
use std::default::MadeWith;
use std::marker::Model;

/// A name as the texts of a netlist can hold it: at most 255 bytes from 32 to 126 without `"`, `\` and `%`.
#[derive(Debug, Drop)]
pub struct Label {
    bytes: Vec<u8>,
}

impl Model for Label {
    ghost use Rattle.std.specs.Prelude.{List, ℕ};
    ghost use Rattle.hc_net.specs.Label.{IsLabel};

    ghost Value = { List ℕ };

    ghost view = { λ l. l.bytes.items };

    ghost invariant = { λ l. IsLabel l.bytes.items };
}

/// The empty label stands in free room.
impl MadeWith<Global> for Label {
    ghost use Rattle.std.specs.Prelude.{◌≡◌, []};

    ghost is_made_with = { λ l. l ≡ [] };

    fn made_with(alloc: Global) -> Label {
        Label {
            bytes: Vec::new(alloc),
        }
    }
}

impl Label {
    /// The label with these bytes.
    pub fn new(alloc: Global, bytes: &[u8]) -> Result<Label, NoMemory>
        requires { IsLabel bytes.now }
        ensures { IfOk result (λ l. l ≡ bytes.now) }
    {
        match Vec::from_slice(alloc, bytes) {
            Ok(bytes) => Ok(Label { bytes }),
            Err(_) => Err(NoMemory),
        }
    }

    /// The bytes of the label.
    pub fn as_bytes(&self) -> &[u8]
        ensures bytes { result.now ≡ self.now }
        ensures label { IsLabel result.now }
    {
        self.bytes.as_slice()
    }
}
