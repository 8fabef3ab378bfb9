ghost use Rattle.std.specs.Prelude.{
  ◌≡◌,
  ◌<◌,
  ◌≤◌,
  ◌^◌,
  ◌↔◌,
  true,
  false,
  [],
  Some,
  length,
  take,
  min,
  OnOk,
  OnErr,
  IfOk,
  IsErrOf,
  IsTrue,
};

use crate::errors::{NoMemory, StoreErr};
use crate::plan::FaultPlan;
use crate::sink::Sink;
use std::alloc::Global;

/// A sink in memory, which tells its bytes. Some of its writes may be told to fail or to take less.
#[derive(Drop)]
pub struct MemSink {
    bytes: Vec<u8>,
    faults: u64,
    plan: FaultPlan,
    ghost fits: { faults < 2 ^ 64 },
    ghost calm: { length plan.failing ≡ 0 → faults ≡ 0 },
}

impl MemSink {
    ghost use Rattle.hc_outside.specs.Plan.{no_faults, with_failing, with_most};
    ghost use Rattle.hc_outside.specs.MemSink.{state_of, plan_of};

    /// An empty sink, none of whose writes is to fail.
    pub fn new(alloc: Global) -> MemSink
        ensures text { (state_of result).text ≡ Some [] }
        ensures faults { (state_of result).faults ≡ 0 }
        ensures sure { (state_of result).sure ≡ true }
        ensures plan { plan_of result ≡ no_faults usize.MAX }
    {
        MemSink {
            bytes: Vec::new(alloc),
            faults: 0,
            plan: FaultPlan::new(alloc),
        }
    }

    /// Makes the write of that number fail, counted from 0 over all writes. An error leaves the sink as it was.
    pub fn fail(&mut self, call: u64) -> Result<(), NoMemory>
        ensures plan { OnOk result (plan_of self.new ≡ with_failing call (plan_of self.old)) }
        ensures sure { OnOk result ((state_of self.new).sure ≡ false) }
        ensures state { state_of self.new ≡ record (state_of self.old) { sure = (state_of self.new).sure } }
        ensures err { OnErr result (plan_of self.new ≡ plan_of self.old) }
    {
        self.plan.fail(call)
    }

    /// Lets a write take at most so many bytes.
    pub fn most(&mut self, bytes: usize)
        requires { 0 < bytes }
        ensures plan { plan_of self.new ≡ with_most bytes (plan_of self.old) }
        ensures state { state_of self.new ≡ state_of self.old }
    {
        self.plan.most(bytes);
    }

    /// What was written.
    pub fn bytes(&self) -> &[u8]
        ensures { (state_of self.now).text ≡ Some result.now }
    {
        self.bytes.as_slice()
    }
}

impl Sink for MemSink {
    ghost use Rattle.hc_outside.specs.Count.{HasRisen};
    ghost use Rattle.hc_outside.specs.Plan.{fails_next, after_call, faults_after};
    ghost use Rattle.hc_outside.specs.Sink.{Wrote};
    ghost use Rattle.hc_outside.specs.MemSink.{state_of, plan_of};
    ghost use Rattle.hc_outside.specs.MemLaws.{calm_sound};

    ghost state = { state_of };

    fn write(&mut self, _alloc: Global, piece: &[u8]) -> Result<usize, StoreErr>
        requires { (state_of self.old).ready ≡ true }
        ensures ok { IfOk result (λ n. Wrote (take n piece.now) (state_of self.old) (state_of self.new)) }
        ensures at_most { IfOk result (λ n. n ≤ length piece.now) }
        ensures some { IfOk result (λ n. 0 < length piece.now → 0 < n) }
        ensures err { OnErr result (Wrote [] (state_of self.old) (state_of self.new)) }
        ensures failed { IsErrOf result StoreErr.Failed →
            HasRisen (state_of self.old).faults (state_of self.new).faults }
        ensures sure { IsErrOf result StoreErr.Failed → (state_of self.old).sure ≡ false }

        // What the plan says happens, and nothing else but want of memory.
        ensures planned { IsErrOf result StoreErr.Failed ↔ IsTrue (fails_next (plan_of self.old)) }
        ensures taken { IfOk result (λ n. n ≡ min (length piece.now) (plan_of self.old).most) }
        ensures faults { (state_of self.new).faults ≡ faults_after (plan_of self.old) (state_of self.old).faults }
        ensures plan { plan_of self.new ≡ after_call (plan_of self.old) }
    {
        if self.plan.turn() {
            self.faults = self.faults.saturating_add(1);
            return Err(StoreErr::Failed);
        }
        let taken = self.plan.taken(piece.len());
        match self.bytes.extend_from_slice(&piece[..taken]) {
            Ok(()) => Ok(taken),
            Err(_) => Err(StoreErr::NoMemory),
        }
    }

    ghost sound = { λ m. calm_sound m.plan m.faults m.fits m.calm };
}
