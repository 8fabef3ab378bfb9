ghost use Rattle.std.specs.Prelude.{◌≡◌, ◌<◌, ◌≤◌, ◌⊎◌, true, false, length, take, OnOk, OnErr, IfOk, IsErrOf};
ghost use Rattle.hc_outside.specs.Count.{HasRisen};
ghost use Rattle.hc_outside.specs.Store.{
  StoreState,
  IsSound,
  IsFile,
  IsMissing,
  IsLonger,
  Created,
  Appended,
  Closed,
  SameFiles,
  MovesReads,
  MovesWrites,
};

use crate::errors::{Failed, LoadErr, StoreErr};
use std::alloc::Global;

/// Files by name, one of which may be open for writing.
///
/// Sizes are in bytes. A store counts its faults: `load` those of reading, the other calls those of writing. Both counts
/// stand still at their last value, `2^64 - 1`.
pub trait Store {
    ghost state: { Self → StoreState };

    /// Puts the bytes of a file in the place of what `into` held.
    ///
    /// `Failed` comes only with a fault of reading, or where there is no such file; `Longer` where the file has more
    /// than `limit` bytes. Every error leaves `into` as it was.
    fn load(
        &mut self,
        alloc: Global,
        name: &str,
        limit: u64,
        into: &mut Vec<u8>,
    ) -> Result<(), LoadErr>
        ensures ok { OnOk result (IsFile (state self.old).disk name.now into.new.items) }
        ensures within { OnOk result (length into.new.items ≤ limit) }
        ensures err { OnErr result (into.new.items ≡ into.old.items) }
        ensures files { SameFiles (state self.old) (state self.new) }
        ensures counts { MovesReads (state self.old) (state self.new) }

        ensures longer { IsErrOf result LoadErr.Longer → IsLonger (state self.old).disk name.now limit }
        ensures failed { IsErrOf result LoadErr.Failed →
            HasRisen (state self.old).reads (state self.new).reads ⊎ IsMissing (state self.old).disk name.now }
        ensures sure { IsErrOf result LoadErr.Failed → (state self.old).sure ≡ true →
            IsMissing (state self.old).disk name.now }
        ensures missing { IsMissing (state self.old).disk name.now → (state self.new).reads ≡ (state self.old).reads };

    /// Makes the file of that name empty, whether it was there or not, and opens it.
    ///
    /// An error leaves all files as they were, and no file open. `Failed` comes only with a fault.
    fn create(&mut self, alloc: Global, name: &str) -> Result<(), StoreErr>
        requires { (state self.old).is_open ≡ false }
        ensures ok { OnOk result (Created name.now (state self.old) (state self.new)) }
        ensures err { OnErr result (SameFiles (state self.old) (state self.new)) }
        ensures counts { MovesWrites (state self.old) (state self.new) }
        ensures failed { IsErrOf result StoreErr.Failed → HasRisen (state self.old).writes (state self.new).writes }
        ensures sure { IsErrOf result StoreErr.Failed → (state self.old).sure ≡ false };

    /// Appends the first bytes of a piece to the open file, and says how many: at least one, if the piece has any.
    ///
    /// An error leaves all files as they were, and the file open. `Failed` comes only with a fault.
    fn append(&mut self, alloc: Global, piece: &[u8]) -> Result<usize, StoreErr>
        requires { (state self.old).is_open ≡ true }
        ensures ok { IfOk result (λ n. Appended (take n piece.now) (state self.old) (state self.new)) }
        ensures at_most { IfOk result (λ n. n ≤ length piece.now) }
        ensures some { IfOk result (λ n. 0 < length piece.now → 0 < n) }
        ensures err { OnErr result (SameFiles (state self.old) (state self.new)) }
        ensures counts { MovesWrites (state self.old) (state self.new) }
        ensures failed { IsErrOf result StoreErr.Failed → HasRisen (state self.old).writes (state self.new).writes }
        ensures sure { IsErrOf result StoreErr.Failed → (state self.old).sure ≡ false };

    /// Closes the open file. Also after an error no file is open, and every file is as it was.
    ///
    /// The error comes only with a fault.
    fn close(&mut self) -> Result<(), Failed>
        requires { (state self.old).is_open ≡ true }
        ensures closed { Closed (state self.old) (state self.new) }
        ensures counts { MovesWrites (state self.old) (state self.new) }
        ensures failed { OnErr result (HasRisen (state self.old).writes (state self.new).writes) }
        ensures sure { OnErr result ((state self.old).sure ≡ false) };

    ghost sound: { (s : Self) → IsSound (state s) };
}
