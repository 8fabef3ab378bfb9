ghost use Rattle.std.specs.Prelude.{◌≡◌, IfOk};

use std::alloc::Global;
use std::marker::Model;

/// There wasn't enough memory.
#[derive(Clone, Copy, Debug, PartialEq, Eq)]
pub struct NoMemory;

/// The name of a file. Contracts see the list of its bytes.
#[derive(Debug, Drop)]
pub struct FileName {
    text: String,
}

impl Model for FileName {
    ghost use Rattle.std.specs.Prelude.{List, ℕ};
    ghost use Rattle.std.specs.String.{string_bytes};

    ghost Value = { List ℕ };

    ghost view = { λ f. string_bytes f.text };
}

impl FileName {
    /// The name that is written so.
    pub fn new(alloc: Global, text: &str) -> Result<FileName, NoMemory>
        ensures { IfOk result (λ f. f ≡ text.now) }
    {
        match String::from_str(alloc, text) {
            Ok(text) => Ok(FileName { text }),
            Err(_) => Err(NoMemory),
        }
    }

    /// The name as it is written.
    pub fn as_str(&self) -> &str
        ensures { result.now ≡ self.now }
    {
        self.text.as_str()
    }
}
