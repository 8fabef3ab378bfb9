ghost use Rattle.std.specs.Prelude.{◌≡◌, ℕ, ◌∷◌, [], slice_get, slice_index_or, slice_set, map, IfOk};
ghost use Rattle.hc_core.specs.Typed.{kinds_of};
ghost use Rattle.hc_meaning.specs.Value.{bits_of, padded, first_words, initial, words, word_in, with_word};
ghost use Rattle.hc_meaning.specs.Clock.{after};

use hc_core::{Kind, Object};
use hc_num::Num;
use hc_tree::NoMemory;
use std::alloc::Global;
use std::marker::Model;

/// What registers, arrays, RAMs and ROMs hold at an edge.
#[derive(Debug, Drop)]
pub struct Store {
    /// The numbers of each object; none for an object that holds nothing.
    words: Vec<Vec<u128>>,
}

impl Model for Store {
    ghost use Rattle.std.specs.Prelude.{ℕ, List, map};

    ghost Value = { List (List ℕ) };

    ghost view = { λ s. map (λ w. w.items) s.words.items };
}

/// A number that is written at an index of an object, at an edge.
#[derive(Clone, Copy, Debug)]
pub struct Write {
    object: u32,
    index: u128,
    bits: u128,
}

impl Model for Write {
    ghost Value = { Rattle.hc_meaning.specs.Clock.Write };

    ghost view = { λ w. record { object = w.object; index = w.index; bits = w.bits } };

    ghost inverse = { λ w. record { object = w.object; index = w.index; bits = w.bits } };
}

impl Write {
    /// The number of these bits, at this index of an object.
    pub fn new(object: u32, index: u128, bits: u128) -> Write
        ensures { result ≡ record { object = object; index = index; bits = bits } }
    {
        Write {
            object,
            index,
            bits,
        }
    }
}

impl Store {
    /// What the objects of a core hold at the start.
    pub fn first(alloc: Global, objects: &[Object]) -> Result<Store, NoMemory>
        ensures { IfOk result (λ store. store ≡ initial (kinds_of objects.now)) }
    {
        let Ok(mut words) = Vec::with_capacity(alloc, objects.len()) else {
            return Err(NoMemory);
        };
        for object in objects {
            let first = first_words(alloc, &object.kind)?;
            match words.push(first) {
                Ok(()) => {}
                Err(_) => return Err(NoMemory),
            }
        }
        Ok(Store { words })
    }

    /// The number of a register (at index 0), an element or a word; None exactly where there is none.
    pub fn word(&self, object: u32, index: u32) -> Option<u128>
        ensures { result ≡ slice_get (words self.now object) index }
    {
        let words = self.words.get(object as usize)?;
        match words.get(index as usize) {
            None => None,
            Some(bits) => Some(*bits),
        }
    }

    /// The number at an index of an object, or 0 outside.
    pub(crate) fn bits(&self, object: u32, index: u128) -> u128
        ensures { result ≡ word_in self.now object index }
    {
        match self.words.get(object as usize) {
            None => 0,
            Some(words) => bits_at(words.as_slice(), index),
        }
    }

    /// Writes a number. A write outside changes nothing.
    pub fn put(&mut self, write: Write)
        ensures { self.new ≡ with_word self.old write.object write.index write.bits }
    {
        let object = write.object as usize;
        if object < self.words.len() {
            put_bits(self.words[object].as_mut_slice(), write.index, write.bits);
        }
    }

    /// Writes these numbers, one after the other.
    pub fn put_all(&mut self, writes: &[Write])
        ensures { self.new ≡ after writes.now self.old }
    {
        for write in writes {
            self.put(*write);
        }
    }
}

/// The number at an index, or 0 outside.
pub(crate) fn bits_at(words: &[u128], index: u128) -> u128
    ensures { result ≡ slice_index_or words.now index 0 }
{
    if index < words.len() as u128 {
        words[index as usize]
    } else {
        0
    }
}

/// Writes a number at an index; outside nothing is changed.
fn put_bits(words: &mut [u128], index: u128, bits: u128)
    ensures { words.new ≡ slice_set words.old index bits }
{
    if index < words.len() as u128 {
        words[index as usize] = bits;
    }
}

/// What an object holds at the start.
fn first_words(alloc: Global, kind: &Kind) -> Result<Vec<u128>, NoMemory>
    ensures { IfOk result (λ found. found.items ≡ first_words kind.now) }
{
    match kind {
        Kind::Reg { init, .. } => one(alloc, init.bits()),
        Kind::Array { length, init, .. } => padded(alloc, *length, init.as_slice()),
        Kind::Ram { length, init, .. } => padded(alloc, *length, init.as_slice()),
        Kind::Rom { length, init, .. } => padded(alloc, *length, init.as_slice()),
        Kind::Signal { .. } => Ok(Vec::new(alloc)),
        Kind::Chan { .. } => Ok(Vec::new(alloc)),
        Kind::Input { .. } => Ok(Vec::new(alloc)),
        Kind::Output { .. } => Ok(Vec::new(alloc)),
    }
}

/// One number.
fn one(alloc: Global, bits: u128) -> Result<Vec<u128>, NoMemory>
    ensures { IfOk result (λ found. found.items ≡ bits ∷ []) }
{
    match vec![in alloc; bits] {
        Ok(found) => Ok(found),
        Err(_) => Err(NoMemory),
    }
}

/// So many numbers, those that are given first and then 0.
fn padded(alloc: Global, length: u32, first: &[Num]) -> Result<Vec<u128>, NoMemory>
    ensures { IfOk result (λ found. found.items ≡ padded length (bits_of first.now)) }
{
    let mut found = Vec::new(alloc);
    for k in 0..length {
        match found.push(given_at(first, k)) {
            Ok(()) => {}
            Err(_) => return Err(NoMemory),
        }
    }
    Ok(found)
}

/// The number at this place, or 0 behind the last.
#[tactic(auto, using(crate::proofs::Words::bits_at_place, crate::proofs::Words::no_bits_behind))]
fn given_at(first: &[Num], k: u32) -> u128
    ensures { result ≡ slice_index_or (bits_of first.now) k 0 }
{
    match first.get(k as usize) {
        None => 0,
        Some(n) => n.bits(),
    }
}
