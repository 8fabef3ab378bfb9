ghost use Rattle.std.specs.Prelude.{
  ◌≡◌,
  ◌<◌,
  ◌≤◌,
  ◌^◌,
  ◌↔◌,
  ◌⊎◌,
  true,
  false,
  length,
  take,
  min,
  OnOk,
  OnErr,
  IfOk,
  IfSome,
  IsNone,
  IsErr,
  IsErrOf,
  IsTrue,
  ℕ,
  List,
};
ghost use Rattle.std.specs.Option.{ForSome};
ghost use Rattle.hc_outside.specs.MemFiles.{name_at, names, is_place};

use crate::errors::{Failed, LoadErr, NoMemory, StoreErr};
use crate::mem_file::MemFile;
use crate::mem_files::{append_at, bytes_of, copy_within, set_file};
use crate::plan::FaultPlan;
use crate::store::Store;
use std::alloc::Global;

/// A store in memory, which tells its files. Some of its calls may be told to fail, and its appends to take less.
///
/// A call that names a file looks through the names of all files.
#[derive(Drop)]
pub struct MemStore {
    alloc: Global,
    files: Vec<MemFile>,
    opened: Option<usize>,
    reads: u64,
    writes: u64,
    plan: FaultPlan,
    ghost reads_fit: { reads < 2 ^ 64 },
    ghost writes_fit: { writes < 2 ^ 64 },
    ghost calm_reads: { length plan.failing ≡ 0 → reads ≡ 0 },
    ghost calm_writes: { length plan.failing ≡ 0 → writes ≡ 0 },
    ghost open_there: { ForSome opened (λ i. is_place i (name_at files.items i) (names files.items) ≡ true) },
}

impl MemStore {
    ghost use Rattle.hc_outside.specs.Plan.{no_faults, with_failing, with_most};
    ghost use Rattle.hc_outside.specs.Store.{empty_store, with_file, IsFile, IsMissing};
    ghost use Rattle.hc_outside.specs.MemStore.{state_of, plan_of};

    /// An empty store: there is no file, none is open, and no call is to fail.
    pub fn new(alloc: Global) -> MemStore
        ensures state { state_of result ≡ empty_store }
        ensures plan { plan_of result ≡ no_faults usize.MAX }
    {
        MemStore {
            alloc,
            files: Vec::new(alloc),
            opened: None,
            reads: 0,
            writes: 0,
            plan: FaultPlan::new(alloc),
        }
    }

    /// Makes the file of that name hold these bytes, whether it was there or not. It counts as no call that may fail.
    ///
    /// An error leaves the store as it was.
    pub fn put(&mut self, name: &str, bytes: &[u8]) -> Result<(), NoMemory>
        ensures ok { OnOk result (state_of self.new ≡ with_file name.now bytes.now (state_of self.old)) }
        ensures err { OnErr result (state_of self.new ≡ state_of self.old) }
        ensures plan { plan_of self.new ≡ plan_of self.old }
    {
        match set_file(&mut self.files, self.alloc, name, bytes) {
            Ok(_) => Ok(()),
            Err(_) => Err(NoMemory),
        }
    }

    /// The bytes of the file of that name, where there is one.
    pub fn get(&self, name: &str) -> Option<&[u8]>
        ensures none { IsNone result ↔ IsMissing (state_of self.now).disk name.now }
        ensures some { IfSome result (λ bytes. IsFile (state_of self.now).disk name.now bytes.now) }
    {
        bytes_of(&self.files, name)
    }

    /// Makes the call of that number fail, counted from 0 over all calls of `load`, `create`, `append` and `close`.
    ///
    /// An error leaves the store as it was.
    pub fn fail(&mut self, call: u64) -> Result<(), NoMemory>
        ensures plan { OnOk result (plan_of self.new ≡ with_failing call (plan_of self.old)) }
        ensures sure { OnOk result ((state_of self.new).sure ≡ false) }
        ensures state { state_of self.new ≡ record (state_of self.old) { sure = (state_of self.new).sure } }
        ensures err { OnErr result (plan_of self.new ≡ plan_of self.old) }
    {
        self.plan.fail(call)
    }

    /// Lets an `append` take at most so many bytes.
    pub fn most(&mut self, bytes: usize)
        requires { 0 < bytes }
        ensures plan { plan_of self.new ≡ with_most bytes (plan_of self.old) }
        ensures state { state_of self.new ≡ state_of self.old }
    {
        self.plan.most(bytes);
    }
}

impl Store for MemStore {
    ghost use Rattle.hc_outside.specs.Count.{HasRisen};
    ghost use Rattle.hc_outside.specs.Plan.{fails_next, after_call, faults_after};
    ghost use Rattle.hc_outside.specs.Store.{
      IsFile,
      IsMissing,
      IsLonger,
      Created,
      Appended,
      Closed,
      SameFiles,
      MovesReads,
      MovesWrites,
    };
    ghost use Rattle.hc_outside.specs.MemStore.{state_of, plan_of};
    ghost use Rattle.hc_outside.specs.MemLaws.{store_sound};

    ghost state = { state_of };

    fn load(
        &mut self,
        alloc: Global,
        name: &str,
        limit: u64,
        into: &mut Vec<u8>,
    ) -> Result<(), LoadErr>
        ensures ok { OnOk result (IsFile (state_of self.old).disk name.now into.new.items) }
        ensures within { OnOk result (length into.new.items ≤ limit) }
        ensures err { OnErr result (into.new.items ≡ into.old.items) }
        ensures files { SameFiles (state_of self.old) (state_of self.new) }
        ensures counts { MovesReads (state_of self.old) (state_of self.new) }

        ensures longer { IsErrOf result LoadErr.Longer → IsLonger (state_of self.old).disk name.now limit }
        ensures failed { IsErrOf result LoadErr.Failed →
            HasRisen (state_of self.old).reads (state_of self.new).reads ⊎ IsMissing (state_of self.old).disk name.now }
        ensures sure { IsErrOf result LoadErr.Failed → (state_of self.old).sure ≡ true →
            IsMissing (state_of self.old).disk name.now }
        ensures missing { IsMissing (state_of self.old).disk name.now →
            (state_of self.new).reads ≡ (state_of self.old).reads }

        // What the plan says happens, and nothing else but want of memory.
        ensures planned { IsErrOf result LoadErr.Failed ↔
            (IsTrue (fails_next (plan_of self.old)) ⊎ IsMissing (state_of self.old).disk name.now) }
        ensures faults { (bytes : List ℕ) → IsFile (state_of self.old).disk name.now bytes →
            (state_of self.new).reads ≡ faults_after (plan_of self.old) (state_of self.old).reads }
        ensures plan { plan_of self.new ≡ after_call (plan_of self.old) }
    {
        let fails = self.plan.turn();
        match bytes_of(&self.files, name) {
            None => Err(LoadErr::Failed),
            Some(_) if fails => {
                self.reads = self.reads.saturating_add(1);
                Err(LoadErr::Failed)
            }
            Some(bytes) => copy_within(alloc, bytes, limit, into),
        }
    }

    fn create(&mut self, alloc: Global, name: &str) -> Result<(), StoreErr>
        requires { (state_of self.old).is_open ≡ false }
        ensures ok { OnOk result (Created name.now (state_of self.old) (state_of self.new)) }
        ensures err { OnErr result (SameFiles (state_of self.old) (state_of self.new)) }
        ensures counts { MovesWrites (state_of self.old) (state_of self.new) }
        ensures failed { IsErrOf result StoreErr.Failed →
            HasRisen (state_of self.old).writes (state_of self.new).writes }
        ensures sure { IsErrOf result StoreErr.Failed → (state_of self.old).sure ≡ false }

        // What the plan says happens, and nothing else but want of memory.
        ensures planned { IsErrOf result StoreErr.Failed ↔ IsTrue (fails_next (plan_of self.old)) }
        ensures faults { (state_of self.new).writes ≡ faults_after (plan_of self.old) (state_of self.old).writes }
        ensures plan { plan_of self.new ≡ after_call (plan_of self.old) }
    {
        if self.plan.turn() {
            self.writes = self.writes.saturating_add(1);
            return Err(StoreErr::Failed);
        }
        match set_file(&mut self.files, alloc, name, &[]) {
            Ok(i) => {
                self.opened = Some(i);
                Ok(())
            }
            Err(_) => Err(StoreErr::NoMemory),
        }
    }

    fn append(&mut self, _alloc: Global, piece: &[u8]) -> Result<usize, StoreErr>
        requires { (state_of self.old).is_open ≡ true }
        ensures ok { IfOk result (λ n. Appended (take n piece.now) (state_of self.old) (state_of self.new)) }
        ensures at_most { IfOk result (λ n. n ≤ length piece.now) }
        ensures some { IfOk result (λ n. 0 < length piece.now → 0 < n) }
        ensures err { OnErr result (SameFiles (state_of self.old) (state_of self.new)) }
        ensures counts { MovesWrites (state_of self.old) (state_of self.new) }
        ensures failed { IsErrOf result StoreErr.Failed →
            HasRisen (state_of self.old).writes (state_of self.new).writes }
        ensures sure { IsErrOf result StoreErr.Failed → (state_of self.old).sure ≡ false }

        // What the plan says happens, and nothing else but want of memory.
        ensures planned { IsErrOf result StoreErr.Failed ↔ IsTrue (fails_next (plan_of self.old)) }
        ensures taken { IfOk result (λ n. n ≡ min (length piece.now) (plan_of self.old).most) }
        ensures faults { (state_of self.new).writes ≡ faults_after (plan_of self.old) (state_of self.old).writes }
        ensures plan { plan_of self.new ≡ after_call (plan_of self.old) }
    {
        if self.plan.turn() {
            self.writes = self.writes.saturating_add(1);
            return Err(StoreErr::Failed);
        }
        let i = self.opened.unwrap();
        let taken = self.plan.taken(piece.len());
        match append_at(&mut self.files, i, &piece[..taken]) {
            Ok(()) => Ok(taken),
            Err(_) => Err(StoreErr::NoMemory),
        }
    }

    fn close(&mut self) -> Result<(), Failed>
        requires { (state_of self.old).is_open ≡ true }
        ensures closed { Closed (state_of self.old) (state_of self.new) }
        ensures counts { MovesWrites (state_of self.old) (state_of self.new) }
        ensures failed { OnErr result (HasRisen (state_of self.old).writes (state_of self.new).writes) }
        ensures sure { OnErr result ((state_of self.old).sure ≡ false) }

        // What the plan says happens, and nothing else.
        ensures planned { IsErr result ↔ IsTrue (fails_next (plan_of self.old)) }
        ensures faults { (state_of self.new).writes ≡ faults_after (plan_of self.old) (state_of self.old).writes }
        ensures plan { plan_of self.new ≡ after_call (plan_of self.old) }
    {
        self.opened = None;
        if self.plan.turn() {
            self.writes = self.writes.saturating_add(1);
            return Err(Failed);
        }
        Ok(())
    }

    ghost sound = { λ m. store_sound m.files.items m.opened m.plan m.reads m.writes m.reads_fit m.writes_fit m.calm_reads m.calm_writes m.open_there };
}
