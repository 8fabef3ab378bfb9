ghost use Rattle.std.specs.Prelude.{◌≡◌, ◌≤◌, length, IfOk};

use crate::place::Place;
use crate::refusal::NoMemory;
use std::alloc::Global;
use std::marker::Model;

/// The bytes of a word or of a text, at most 255 of them. Contracts see the list of its bytes.
#[derive(Debug, Drop)]
pub struct Name {
    bytes: Vec<u8>,
}

impl Model for Name {
    ghost use Rattle.std.specs.Prelude.{List, ℕ, ◌≤◌, length};

    ghost Value = { List ℕ };

    ghost view = { λ n. n.bytes.items };

    ghost invariant = { λ n. length n.bytes.items ≤ 255 };
}

impl Name {
    /// The name with these bytes.
    pub fn new(alloc: Global, bytes: &[u8]) -> Result<Name, NoMemory>
        requires { length bytes.now ≤ 255 }
        ensures { IfOk result (λ n. n ≡ bytes.now) }
    {
        match Vec::from_slice(alloc, bytes) {
            Ok(bytes) => Ok(Name { bytes }),
            Err(_) => Err(NoMemory),
        }
    }

    /// The bytes of the name.
    pub fn as_bytes(&self) -> &[u8]
        ensures bytes { result.now ≡ self.now }
        ensures short { length result.now ≤ 255 }
    {
        self.bytes.as_slice()
    }
}

/// A name where it is written.
#[derive(Debug, Drop)]
pub struct Ident {
    pub place: Place,
    pub name: Name,
}
