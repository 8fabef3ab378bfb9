ghost use Rattle.std.specs.Prelude.{◌≡◌, ◌++◌, [], true, decimal, OnOk, IfErr};
ghost use Rattle.hc_run.specs.Sent.{Sent, Stopped};

use hc_outside::{Sink, WriteErr, write_all};
use itoa::Buffer;
use std::alloc::{AllocError, Global};

/// How many bytes of text wait before they are written.
const ENOUGH: usize = 65536;

/// Appends a number in decimal.
pub(crate) fn push_number(text: &mut Vec<u8>, n: u32) -> Result<(), AllocError>
    ensures { OnOk result (text.new.items ≡ text.old.items ++ decimal n) }
{
    let mut buffer = Buffer::new();
    text.extend_from_slice(buffer.format(n).as_bytes())
}

/// Writes the text that waits, once it is long.
pub(crate) fn send<K: Sink>(alloc: Global, text: &mut Vec<u8>, out: &mut K) -> Result<(), WriteErr>
    requires { (K.state out.old).ready ≡ true }
    ensures ok { OnOk result (Sent [] text.old.items text.new.items (K.state out.old) (K.state out.new)) }
    ensures err { IfErr result (λ e. Stopped text.old.items e (K.state out.old) (K.state out.new)) }
{
    if text.len() < ENOUGH {
        return Ok(());
    }
    write_all(alloc, text.as_slice(), out)?;
    text.clear();
    Ok(())
}

/// Sends a piece.
pub(crate) fn send_piece<K: Sink>(
    alloc: Global,
    piece: &[u8],
    text: &mut Vec<u8>,
    out: &mut K,
) -> Result<(), WriteErr>
    requires { (K.state out.old).ready ≡ true }
    ensures ok { OnOk result (Sent piece.now text.old.items text.new.items (K.state out.old) (K.state out.new)) }
    ensures err { IfErr result (λ e. Stopped (text.old.items ++ piece.now) e (K.state out.old) (K.state out.new)) }
{
    match text.extend_from_slice(piece) {
        Ok(()) => send(alloc, text, out),
        Err(_) => Err(WriteErr::NoMemory),
    }
}
