ghost use Rattle.std.specs.Prelude.{◌≡◌, ◌++◌, ◌∷◌, [], length, map, IfOk, OnOk, OnErr};
ghost use Rattle.hc_net.specs.Ram.{moved};
ghost use Rattle.hc_net.specs.Place.{place_of};

use crate::nets::{Nets, NoMemory};
use std::alloc::Global;
use std::marker::Model;

/// A list of bits: what a RAM starts with, word 0 and its lowest bit first.
#[derive(Debug, Drop)]
pub struct Bits {
    bits: Vec<bool>,
}

impl Model for Bits {
    ghost use Rattle.std.specs.Prelude.{List, Bool};

    ghost Value = { List Bool };

    ghost view = { λ b. b.bits.items };
}

impl Bits {
    /// No bits.
    pub fn new(alloc: Global) -> Bits
        ensures { result ≡ [] }
    {
        Bits {
            bits: Vec::new(alloc),
        }
    }

    /// The bits of a slice, in its order.
    pub fn from_slice(alloc: Global, bits: &[bool]) -> Result<Bits, NoMemory>
        ensures { IfOk result (λ b. b ≡ bits.now) }
    {
        match Vec::from_slice(alloc, bits) {
            Ok(bits) => Ok(Bits { bits }),
            Err(_) => Err(NoMemory),
        }
    }

    /// Adds a bit behind the others. An error leaves the list as it was.
    pub fn push(&mut self, bit: bool) -> Result<(), NoMemory>
        ensures ok { OnOk result (self.new ≡ self.old ++ bit ∷ []) }
        ensures err { OnErr result (self.new ≡ self.old) }
    {
        match self.bits.push(bit) {
            Ok(()) => Ok(()),
            Err(_) => Err(NoMemory),
        }
    }

    /// How many bits there are.
    pub fn len(&self) -> usize
        ensures { result ≡ length self.now }
    {
        self.bits.len()
    }

    /// The bits, in order.
    pub fn as_slice(&self) -> &[bool]
        ensures { result.now ≡ self.now }
    {
        self.bits.as_slice()
    }
}

/// A RAM, or a ROM where its write net is 0: words of `width` bits, from `init` on. Its nets hold the word at the address
/// in the same clock, or 0 outside. At each edge the word at the address becomes `d`, where `we` holds and the address is
/// inside.
#[derive(Debug, Drop)]
pub struct RamCell {
    /// The number of the object of the source.
    pub object: u32,
    pub words: u32,
    /// The bits of a word.
    pub width: u32,
    /// The first words, word 0 and its lowest bit first.
    pub init: Bits,
    /// The nets of the address, lowest bit first.
    pub addr: Nets,
    /// The write net.
    pub we: u32,
    /// The nets of the word to write, lowest bit first.
    pub d: Nets,
}

impl RamCell {
    /// The same RAM once more.
    pub(crate) fn copy(&self, alloc: Global) -> Result<RamCell, NoMemory>
        ensures { IfOk result (λ r. r ≡ self.now) }
    {
        Ok(RamCell {
            object: self.object,
            words: self.words,
            width: self.width,
            init: Bits::from_slice(alloc, self.init.as_slice())?,
            addr: Nets::from_slice(alloc, self.addr.as_slice())?,
            we: self.we,
            d: Nets::from_slice(alloc, self.d.as_slice())?,
        })
    }
}

/// The nets of a RAM in a builder. `addr`, `we` and `d` are placeholders that `drive` connects.
#[derive(Debug, Drop)]
pub struct RamWires {
    /// The word at the address, lowest bit first.
    pub q: Nets,
    /// The address, lowest bit first.
    pub addr: Nets,
    /// The write net.
    pub we: u32,
    /// The word to write, lowest bit first.
    pub d: Nets,
}
