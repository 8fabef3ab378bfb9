ghost use Rattle.std.specs.Prelude.{◌≡◌, true, false, OnOk, OnErr, IsErrOf};
ghost use Rattle.hc_outside.specs.Count.{HasRisen};
ghost use Rattle.hc_outside.specs.Sink.{Wrote, WroteFront};

use crate::errors::{StoreErr, WriteErr};
use crate::sink::Sink;
use std::alloc::Global;

/// Writes a whole piece, with as many writes as it takes.
///
/// After an error some front part of the piece was written. `WriteFault` comes only with a fault of the sink.
pub fn write_all<K: Sink>(alloc: Global, piece: &[u8], out: &mut K) -> Result<(), WriteErr>
    requires { (K.state out.old).ready ≡ true }
    ensures ok { OnOk result (Wrote piece.now (K.state out.old) (K.state out.new)) }
    ensures err { OnErr result (WroteFront piece.now (K.state out.old) (K.state out.new)) }
    ensures fault { IsErrOf result WriteErr.WriteFault → HasRisen (K.state out.old).faults (K.state out.new).faults }
    ensures sure { IsErrOf result WriteErr.WriteFault → (K.state out.old).sure ≡ false }
{
    let mut rest = piece;
    while !rest.is_empty() {
        match out.write(alloc, rest) {
            Ok(n) => rest = &rest[n..],
            Err(StoreErr::Failed) => return Err(WriteErr::WriteFault),
            Err(StoreErr::NoMemory) => return Err(WriteErr::NoMemory),
        }
    }
    Ok(())
}
