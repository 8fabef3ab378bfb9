ghost use Rattle.std.specs.Prelude.{◌≡◌, ◌<◌, ◌≤◌, true, false, [], length, take, OnErr, IfOk, IsErrOf};
ghost use Rattle.hc_outside.specs.Count.{HasRisen};
ghost use Rattle.hc_outside.specs.Sink.{SinkState, IsSound, Wrote};

use crate::errors::StoreErr;
use std::alloc::Global;

/// A place that bytes are written to, one piece after the other.
///
/// A sink counts its faults; the count stands still at its last value, `2^64 - 1`.
pub trait Sink {
    ghost state: { Self → SinkState };

    /// Writes the first bytes of a piece, and says how many: at least one, if the piece has any.
    ///
    /// An error has written nothing. `Failed` comes only with a fault.
    fn write(&mut self, alloc: Global, piece: &[u8]) -> Result<usize, StoreErr>
        requires { (state self.old).ready ≡ true }
        ensures ok { IfOk result (λ n. Wrote (take n piece.now) (state self.old) (state self.new)) }
        ensures at_most { IfOk result (λ n. n ≤ length piece.now) }
        ensures some { IfOk result (λ n. 0 < length piece.now → 0 < n) }
        ensures err { OnErr result (Wrote [] (state self.old) (state self.new)) }
        ensures failed { IsErrOf result StoreErr.Failed → HasRisen (state self.old).faults (state self.new).faults }
        ensures sure { IsErrOf result StoreErr.Failed → (state self.old).sure ≡ false };

    ghost sound: { (s : Self) → IsSound (state s) };
}
