ghost use Rattle.std.specs.Prelude.{◌≡◌, ◌++◌, [], ◌∷◌, true, false, map, OnOk, OnErr, IfOk, IsErrOf};
ghost use Rattle.hc_outside.specs.Count.{HasRisen};
ghost use Rattle.hc_outside.specs.Sink.{Wrote, WroteFront};
ghost use Rattle.hc_stim.specs.Text.{header_text, clock_text, spaced};

use hc_outside::{Sink, WriteErr, write_all};
use itoa::Buffer;
use std::alloc::{AllocError, Global};

/// The names of the outputs.
pub type Names = Vec<Vec<u8>>;

/// Writes the first line of a trace: `clock`, and the name of each output.
///
/// After an error a front part of the line was written. `WriteFault` comes only with a fault of the sink.
pub fn write_header<K: Sink>(alloc: Global, names: &Names, out: &mut K) -> Result<(), WriteErr>
    requires { (K.state out.old).ready ≡ true }
    ensures ok { OnOk result (Wrote (header_text (map (λ n. n.items) names.now.items)) (K.state out.old) (K.state out.new)) }
    ensures err { OnErr result (WroteFront (header_text (map (λ n. n.items) names.now.items)) (K.state out.old) (K.state out.new)) }
    ensures fault { IsErrOf result WriteErr.WriteFault → HasRisen (K.state out.old).faults (K.state out.new).faults }
    ensures sure { IsErrOf result WriteErr.WriteFault → (K.state out.old).sure ≡ false }
{
    match header(alloc, names.as_slice()) {
        Ok(line) => write_all(alloc, line.as_slice(), out),
        Err(_) => Err(WriteErr::NoMemory),
    }
}

/// Writes the line of a clock, counted from 0: its number, and the number of each output.
///
/// After an error a front part of the line was written. `WriteFault` comes only with a fault of the sink.
pub fn write_line<K: Sink>(
    alloc: Global,
    clock: u64,
    values: &[u128],
    out: &mut K,
) -> Result<(), WriteErr>
    requires { (K.state out.old).ready ≡ true }
    ensures ok { OnOk result (Wrote (clock_text clock values.now) (K.state out.old) (K.state out.new)) }
    ensures err { OnErr result (WroteFront (clock_text clock values.now) (K.state out.old) (K.state out.new)) }
    ensures fault { IsErrOf result WriteErr.WriteFault → HasRisen (K.state out.old).faults (K.state out.new).faults }
    ensures sure { IsErrOf result WriteErr.WriteFault → (K.state out.old).sure ≡ false }
{
    match clock_line(alloc, clock, values) {
        Ok(line) => write_all(alloc, line.as_slice(), out),
        Err(_) => Err(WriteErr::NoMemory),
    }
}

/// The first line of a trace.
fn header(alloc: Global, names: &[Vec<u8>]) -> Result<Vec<u8>, AllocError>
    ensures { IfOk result (λ line. line.items ≡ header_text (map (λ n. n.items) names.now)) }
{
    let mut line = Vec::from_slice(alloc, b"clock")?;
    for name in names {
        line.extend_from_slice(b" ")?;
        line.extend_from_slice(name.as_slice())?;
    }
    line.extend_from_slice(b"\n")?;
    Ok(line)
}

/// The line of a clock.
fn clock_line(alloc: Global, clock: u64, values: &[u128]) -> Result<Vec<u8>, AllocError>
    ensures { IfOk result (λ line. line.items ≡ clock_text clock values.now) }
{
    let mut digits = Buffer::new();
    let mut line = Vec::from_slice(alloc, digits.format(clock).as_bytes())?;
    for value in values {
        push_value(&mut line, *value)?;
    }
    line.extend_from_slice(b"\n")?;
    Ok(line)
}

/// Appends a number in decimal, with a space in front.
fn push_value(line: &mut Vec<u8>, value: u128) -> Result<(), AllocError>
    ensures { OnOk result (line.new.items ≡ line.old.items ++ spaced (value ∷ [])) }
{
    let mut digits = Buffer::new();
    line.extend_from_slice(b" ")?;
    line.extend_from_slice(digits.format(value).as_bytes())
}
