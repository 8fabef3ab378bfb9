ghost use Rattle.std.specs.Prelude.{◌≡◌, ◌==◌, [], ◌∷◌, ◌++◌, length, IfOk, OnOk, OnErr};

use smallvec::SmallVec;
use std::alloc::Global;
use std::marker::Model;

/// There wasn't enough memory.
#[derive(Clone, Copy, Debug, PartialEq, Eq)]
pub struct NoMemory;

/// A list of net numbers, lowest bit first.
#[derive(Debug, Drop)]
pub struct Nets {
    numbers: SmallVec<u32, 4>,
}

impl Model for Nets {
    ghost use Rattle.std.specs.Prelude.{List, ℕ};

    ghost Value = { List ℕ };

    ghost view = { λ n. n.numbers.items };
}

impl Nets {
    /// No nets.
    pub fn new(alloc: Global) -> Nets
        ensures { result ≡ [] }
    {
        Nets {
            numbers: SmallVec::new(alloc),
        }
    }

    /// The nets of a slice, in its order.
    pub fn from_slice(alloc: Global, numbers: &[u32]) -> Result<Nets, NoMemory>
        ensures { IfOk result (λ n. n ≡ numbers.now) }
    {
        match SmallVec::from_slice(alloc, numbers) {
            Ok(numbers) => Ok(Nets { numbers }),
            Err(_) => Err(NoMemory),
        }
    }

    /// Adds a net above the others. An error leaves the list as it was.
    pub fn push(&mut self, net: u32) -> Result<(), NoMemory>
        ensures ok { OnOk result (self.new ≡ self.old ++ net ∷ []) }
        ensures err { OnErr result (self.new ≡ self.old) }
    {
        match self.numbers.push(net) {
            Ok(()) => Ok(()),
            Err(_) => Err(NoMemory),
        }
    }

    /// How many nets there are.
    pub fn len(&self) -> usize
        ensures { result ≡ length self.now }
    {
        self.numbers.len()
    }

    /// Whether there are none.
    pub fn is_empty(&self) -> bool
        ensures { result ≡ (length self.now == 0) }
    {
        self.numbers.len() == 0
    }

    /// The numbers, lowest bit first.
    pub fn as_slice(&self) -> &[u32]
        ensures { result.now ≡ self.now }
    {
        self.numbers.as_slice()
    }
}
