ghost use Rattle.std.specs.Prelude.{◌≡◌, ◌<◌, length, min, OnOk, OnErr};
ghost use Rattle.hc_outside.specs.Plan.{Plan, no_faults, fails_next, after_call, with_failing, with_most};

use crate::errors::NoMemory;
use std::alloc::Global;
use std::marker::Model;

/// Which calls of a store or a sink in memory fail, and how much one takes.
#[derive(Drop)]
pub(crate) struct FaultPlan {
    failing: Vec<u64>,
    next: u64,
    most: usize,
}

impl Model for FaultPlan {
    ghost Value = { Plan };

    ghost view = { λ a. record { failing = a.failing.items; next = a.next; most = a.most } };

    ghost invariant = { λ a. 0 < a.most };
}

impl FaultPlan {
    /// No call fails, and a call takes all.
    pub(crate) fn new(alloc: Global) -> FaultPlan
        ensures { result ≡ no_faults usize.MAX }
    {
        FaultPlan {
            failing: Vec::new(alloc),
            next: 0,
            most: usize::MAX,
        }
    }

    /// Makes the call of that number fail.
    pub(crate) fn fail(&mut self, call: u64) -> Result<(), NoMemory>
        ensures ok { OnOk result (self.new ≡ with_failing call self.old) }
        ensures err { OnErr result (self.new ≡ self.old) }
    {
        match self.failing.push(call) {
            Ok(()) => Ok(()),
            Err(_) => Err(NoMemory),
        }
    }

    /// Lets a call take at most so many bytes.
    pub(crate) fn most(&mut self, bytes: usize)
        requires { 0 < bytes }
        ensures { self.new ≡ with_most bytes self.old }
    {
        self.most = bytes;
    }

    /// Counts a call, and says whether it is to fail.
    pub(crate) fn turn(&mut self) -> bool
        ensures fails { result ≡ fails_next self.old }
        ensures counted { self.new ≡ after_call self.old }
    {
        let fails = self.failing.contains(&self.next);
        self.next = self.next.saturating_add(1);
        fails
    }

    /// How many of so many bytes a call takes.
    pub(crate) fn taken(&self, bytes: usize) -> usize
        ensures taken { result ≡ min bytes self.now.most }
        ensures some { 0 < bytes → 0 < result }
    {
        bytes.min(self.most)
    }
}
