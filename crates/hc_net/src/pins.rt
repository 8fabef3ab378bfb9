ghost use Rattle.std.specs.Prelude.{◌≡◌, [], ◌∷◌, ◌++◌, length, IfOk, OnOk, OnErr};

use crate::label::Label;
use crate::nets::NoMemory;
use smallvec::SmallVec;
use std::alloc::Global;
use std::marker::Model;

/// The pins of a port: none, or one for each bit, the lowest bit first.
#[derive(Debug, Drop)]
pub struct Pins {
    labels: SmallVec<Label, 1>,
}

impl Model for Pins {
    ghost use Rattle.std.specs.Prelude.{List, ℕ};

    ghost Value = { List (List ℕ) };

    ghost view = { λ p. p.labels.items };
}

impl Pins {
    /// No pins.
    pub fn new(alloc: Global) -> Pins
        ensures { result ≡ [] }
    {
        Pins {
            labels: SmallVec::new(alloc),
        }
    }

    /// Adds the pin of the next bit. An error leaves the list as it was.
    pub fn push(&mut self, pin: Label) -> Result<(), NoMemory>
        ensures ok { OnOk result (self.new ≡ self.old ++ pin ∷ []) }
        ensures err { OnErr result (self.new ≡ self.old) }
    {
        match self.labels.push(pin) {
            Ok(()) => Ok(()),
            Err(_) => Err(NoMemory),
        }
    }

    /// How many pins there are.
    pub fn len(&self) -> usize
        ensures { result ≡ length self.now }
    {
        self.labels.len()
    }

    /// The labels, the lowest bit first.
    pub fn as_slice(&self) -> &[Label]
        ensures { result.now ≡ self.now }
    {
        self.labels.as_slice()
    }

    /// The same pins once more.
    pub fn copy(&self, alloc: Global) -> Result<Pins, NoMemory>
        ensures { IfOk result (λ pins. pins ≡ self.now) }
    {
        let mut pins = Pins::new(alloc);
        let labels = self.as_slice();
        for label in labels {
            pins.push(Label::new(alloc, label.as_bytes())?)?;
        }
        Ok(pins)
    }
}
