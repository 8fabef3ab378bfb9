ghost use Rattle.std.specs.Prelude.{◌≡◌, ◌<◌, ◌≤◌, ◌↔◌, ◌+◌, ◌*◌, ◌++◌, length, map, take, drop, IfOk, IfSome, IsNone, MatchOption, All};
ghost use Rattle.std.specs.List.{range_with_len};
ghost use Rattle.hc_net.specs.Bits.{number};
ghost use Rattle.hc_net.specs.Ram.{address, put_at, read_bits, word_bit};
ghost use Rattle.hc_net.specs.Run.{net_bit};
ghost use Rattle.hc_net.specs.Valid.{RamHasSizes};
ghost use Rattle.hc_netsim.specs.Held.{HasWords, first_held, after_edge};
ghost use Rattle.hc_netsim.specs.Pass.{RamReadsWithin};

use crate::numbers::{number_of, put_bits_on, put_zeros};
use hc_net::{NoMemory, RamCell};
use std::alloc::Global;
use std::marker::Model;

/// A RAM and what it holds.
#[derive(Drop)]
pub(crate) struct Memory<'a> {
    ram: &'a RamCell,
    /// Word 0 and its lowest bit first.
    bits: Vec<bool>,
}

impl<'a> Model for Memory<'a> {
    ghost use Rattle.hc_netsim.specs.Held.{Held, HasWords};

    ghost Value = { Held };

    ghost view = { λ m. record { ram = m.ram.now; bits = m.bits.items } };

    ghost invariant = { λ m. HasWords (record { ram = m.ram.now; bits = m.bits.items }) };
}

impl<'a> Memory<'a> {
    /// The RAM with its first words.
    pub(crate) fn new(alloc: Global, ram: &'a RamCell) -> Result<Memory<'a>, NoMemory>
        requires { RamHasSizes ram.now }
        ensures { IfOk result (λ m. m ≡ first_held ram.now) }
    {
        match Vec::from_slice(alloc, ram.init.as_slice()) {
            Ok(bits) => Ok(Memory { ram, bits }),
            Err(_) => Err(NoMemory),
        }
    }

    /// The number of its object.
    pub(crate) fn object(&self) -> u32
        ensures { result ≡ self.now.ram.object }
    {
        self.ram.object
    }

    /// The word at this index; `None` outside.
    pub(crate) fn word(&self, index: u32) -> Option<u128>
        ensures some { IfSome result (λ n. n ≡ number (map (word_bit self.now.bits self.now.ram.width index) (range_with_len 0 self.now.ram.width))) }
        ensures none { IsNone result ↔ (self.now.ram.words ≤ index) }
    {
        if index >= self.ram.words {
            return None;
        }
        Some(number_of(word_at(self.ram, self.bits.as_slice(), index as usize)))
    }

    /// Writes the word at the address on its nets, of which the first is `net`, or 0 outside. It gives the net behind them.
    pub(crate) fn put_word(&self, net: usize, values: &mut [bool]) -> usize
        requires nets { net + self.now.ram.width ≤ length values.old }
        requires addr { All (λ k. k < net) self.now.ram.addr }
        ensures net { result ≡ net + self.now.ram.width }
        ensures word { values.new ≡ take net values.old ++ read_bits self.now.ram self.now.bits (net_bit (take net values.old))
            ++ drop (net + self.now.ram.width) values.old }
    {
        let behind = net + self.ram.width as usize;
        match index_on(self.ram, &values[..net]) {
            Some(index) => {
                let word = word_at(self.ram, self.bits.as_slice(), index);
                values[net..behind].copy_from_slice(word);
            }
            None => put_zeros(&mut values[net..behind]),
        }
        behind
    }

    /// Writes at the edge: the bits of its data nets at the address, where its write net holds and the address is inside.
    pub(crate) fn write(&mut self, values: &[bool])
        requires { RamReadsWithin (length values.now) self.old.ram }
        ensures { self.new ≡ after_edge (net_bit values.now) self.old }
    {
        if !values[self.ram.we as usize] {
            return;
        }
        if let Some(index) = index_on(self.ram, values) {
            put_word_at(self.ram, values, index, self.bits.as_mut_slice());
        }
    }
}

/// The index on the address nets of a RAM; `None` outside. What is outside by its higher bits stays outside.
fn index_on(ram: &RamCell, values: &[bool]) -> Option<usize>
    requires sizes { RamHasSizes ram.now }
    requires nets { All (λ k. k < length values.now) ram.now.addr }
    ensures { MatchOption result (ram.now.words ≤ address ram.now (net_bit values.now))
        (λ i. (i ≡ address ram.now (net_bit values.now)) × (i < ram.now.words)) }
{
    let addr = ram.addr.as_slice();
    let mut index = 0;
    for k in (0..addr.len()).rev() {
        index = 2 * index + usize::from(values[addr[k] as usize]);
        if index >= ram.words as usize {
            return None;
        }
    }
    Some(index)
}

/// The word at this index of what a RAM holds.
fn word_at<'b>(ram: &RamCell, bits: &'b [bool], index: usize) -> &'b [bool]
    requires held { HasWords (record { ram = ram.now; bits = bits.now }) }
    requires inside { index < ram.now.words }
    ensures word { result.now ≡ map (word_bit bits.now ram.now.width index) (range_with_len 0 ram.now.width) }
    ensures width { (length result.now ≡ ram.now.width) × (ram.now.width ≤ 128) }
{
    let width = ram.width as usize;
    &bits[index * width..(index + 1) * width]
}

/// Writes the bits of the data nets at this index.
fn put_word_at(ram: &RamCell, values: &[bool], index: usize, bits: &mut [bool])
    requires held { HasWords (record { ram = ram.now; bits = bits.old }) }
    requires inside { index < ram.now.words }
    requires nets { All (λ k. k < length values.now) ram.now.d }
    ensures { bits.new ≡ put_at bits.old (index * ram.now.width) (map (net_bit values.now) ram.now.d) }
{
    let width = ram.width as usize;
    let word = &mut bits[index * width..(index + 1) * width];
    put_bits_on(ram.d.as_slice(), values, word);
}
