ghost use Rattle.std.specs.Prelude.{◌≡◌, ◌≢◌, ◌↔◌, ◌≤◌, ℕ, Some, slice_get, IfOk, IfSome, IsNone, IsTrue};

use crate::clock::run_clock;
use crate::memory::Memory;
use crate::room::{first_bits, first_memories, net_bits};
use hc_net::{Flop, FlopName, Net, NoMemory};
use hc_stim::{Bench, Tick};
use std::alloc::Global;
use std::marker::Model;

/// A netlist that runs clock by clock.
#[derive(Drop)]
pub struct Gates<'a> {
    net: &'a Net,
    /// The bit of each flip-flop.
    state: Vec<bool>,
    /// Each RAM with what it holds.
    memories: Vec<Memory<'a>>,
    /// The bit of each net in the last clock.
    values: Vec<bool>,
}

impl<'a> Model for Gates<'a> {
    ghost use Rattle.hc_netsim.specs.Running.{Running, HasRoom, state_of};

    ghost Value = { Running };

    ghost view = { λ g. record { net = g.net.now; state = state_of g.state.items g.memories.items } };

    ghost invariant = { λ g. HasRoom g.net.now g.state.items g.memories.items g.values.items };
}

impl<'a> Gates<'a> {
    ghost use Rattle.hc_net.specs.Run.{HoldsBit, first_state, rams_of};
    ghost use Rattle.hc_net.specs.declared.net.Flop.{Flop};
    ghost use Rattle.hc_net.specs.declared.ram.RamCell.{RamCell};
    ghost use Rattle.hc_netsim.specs.Running.{HoldsWord};

    /// The netlist before its first clock, each flip-flop with its first bit and each RAM with its first words.
    pub fn start(alloc: Global, net: &'a Net) -> Result<Gates<'a>, NoMemory>
        ensures { IfOk result (λ g. g ≡ record { net = net.now; state = first_state net.now }) }
    {
        let raw = net.raw();
        let state = first_bits(alloc, raw.flops.as_slice())?;
        let memories = first_memories(alloc, raw.cells.as_slice())?;
        let values = net_bits(alloc, raw)?;
        Ok(Gates {
            net,
            state,
            memories,
            values,
        })
    }

    /// The bit of the flip-flop of that name. It looks through the names of all flip-flops.
    pub fn flop(&self, name: FlopName) -> Option<bool>
        ensures some { IfSome result (HoldsBit self.now.net.flops self.now.state name) }
        ensures none { IsNone result ↔ ((j : ℕ) (f : Flop) → slice_get self.now.net.flops j ≡ Some f → f.name ≢ name) }
    {
        let flops = self.net.raw().flops.as_slice();
        for (k, flop) in flops.iter().enumerate() {
            if is_named(flop, name) {
                return Some(self.state[k]);
            }
        }
        None
    }

    /// The word at this index of the RAM or ROM of that object. It looks through the objects of all RAMs.
    pub fn word(&self, object: u32, index: u32) -> Option<u128>
        ensures some { IfSome result (HoldsWord (rams_of self.now.net.cells) self.now.state object index) }
        ensures none { IsNone result ↔ ((j : ℕ) (r : RamCell) → slice_get (rams_of self.now.net.cells) j ≡ Some r → r.object ≡ object → r.words ≤ index) }
    {
        for memory in self.memories.as_slice() {
            if memory.object() == object {
                return memory.word(index);
            }
        }
        None
    }
}

impl<'a> Bench for Gates<'a> {
    ghost use Rattle.std.specs.Prelude.{length};
    ghost use Rattle.hc_net.specs.Run.{State};
    ghost use Rattle.hc_stim.specs.Bench.{AreInputs, Gives, IfConflict, IsSameBench};
    ghost use Rattle.hc_netsim.specs.Running.{meaning_of};

    ghost State = { State };

    ghost meaning = { meaning_of };

    fn clock(&mut self, inputs: &[u128], outputs: &mut [u128]) -> Tick
        requires inputs { AreInputs (meaning_of self.old).widths inputs.now }
        requires outputs { length outputs.old ≡ (meaning_of self.old).outputs }
        ensures gives { Gives (meaning_of self.old) inputs.now result outputs.new (meaning_of self.new) }
        ensures conflict { IfConflict result ((meaning_of self.new ≡ meaning_of self.old) × (outputs.new ≡ outputs.old)) }
        ensures same { IsSameBench (meaning_of self.old) (meaning_of self.new) }

        // A netlist has no conflict, and stays what it is.
        ensures done { result ≡ Tick.Done }
        ensures net { self.new.net ≡ self.old.net }
    {
        run_clock(
            self.net.raw(),
            self.state.as_mut_slice(),
            self.memories.as_mut_slice(),
            self.values.as_mut_slice(),
            inputs,
            outputs,
        );
        Tick::Done
    }
}

/// Whether a flip-flop has this name.
fn is_named(flop: &Flop, name: FlopName) -> bool
    ensures { IsTrue result ↔ (flop.now.name ≡ name) }
{
    flop.name == name
}
