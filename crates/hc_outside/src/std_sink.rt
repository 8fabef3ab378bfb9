ghost use Rattle.std.specs.Prelude.{◌≡◌, ◌<◌, ◌≤◌, ◌^◌, length, take, IfOk};
ghost use Rattle.hc_outside.specs.Sink.{untold_sink};
ghost use Rattle.hc_outside.specs.UntoldLaws.{untold_count};

use crate::errors::StoreErr;
use crate::report::refused;
use crate::sink::Sink;
use std::alloc::Global;
use std::io;
use std::io::{Error, ErrorKind};

/// The standard output. It tells nothing of what was written, and is never sure. Where it can't be written to, it says so
/// on standard error, with the system's reason.
///
/// `main` and tests make it, from the runtime that they are given.
#[derive(Drop)]
pub struct StdSink<P: Print + Eprint + Drop> {
    to: P,
    faults: u64,
    ghost fits: { faults < 2 ^ 64 },
}

impl<P: Print + Eprint + Drop> StdSink<P> {
    ghost use Rattle.hc_outside.specs.StdSink.{state_of};

    /// The standard output, to which nothing was written yet.
    pub fn new(to: P) -> StdSink<P>
        ensures { state_of result ≡ untold_sink 0 }
    {
        StdSink { to, faults: 0 }
    }
}

impl<P: Print + Eprint + Drop> Sink for StdSink<P> {
    ghost use Rattle.hc_outside.specs.StdSink.{state_of};

    ghost state = { state_of };

    fn write(&mut self, _alloc: Global, piece: &[u8]) -> Result<usize, StoreErr> {
        match some_written(&self.to, piece) {
            Ok(n) => Ok(n),
            Err(error) => match refused(&self.to, "the standard output", "written", &error) {
                StoreErr::Failed => {
                    self.faults = self.faults.saturating_add(1);
                    Err(StoreErr::Failed)
                }
                StoreErr::NoMemory => Err(StoreErr::NoMemory),
            },
        }
    }

    ghost sound = { λ s. untold_count s.faults s.fits };
}

/// How many of the first bytes of a piece were written. To write none of a piece that has some is a failure.
fn some_written<P: Print>(to: &P, piece: &[u8]) -> io::Result<usize>
    ensures at_most { IfOk result (λ n. n ≤ length piece.now) }
    ensures some { IfOk result (λ n. 0 < length piece.now → 0 < n) }
{
    match to.write_some(piece) {
        Ok(0) if !piece.is_empty() => Err(Error::from(ErrorKind::WriteZero)),
        Ok(n) => Ok(n),
        Err(error) => Err(error),
    }
}
