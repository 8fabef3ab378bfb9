ghost use Rattle.std.specs.Prelude.{◌≡◌, ◌<◌, ◌++◌, ◌∷◌, [], length, All, IfOk, OnOk};
ghost use Rattle.hc_net.specs.Circuit.{constant_at, node_at};
ghost use Rattle.hc_ram.specs.Sources.{kept, may_write, write_words, writing};

use crate::append::append;
use hc_net::{Builder, Nets, NoMemory};
use std::alloc::Global;

/// The uses of a RAM that may write: all but those whose write net is a constant 0.
#[derive(Drop)]
pub(crate) struct Writers {
    /// The enable of each.
    pub(crate) enables: Nets,
    /// The write net of each, and above it its value.
    pub(crate) words: Vec<Nets>,
}

/// The uses that may write, in their order. Net i of `writes` and value i stand for enable i.
pub(crate) fn find_writers(
    alloc: Global,
    b: &Builder,
    enables: &Nets,
    writes: &Nets,
    values: &[Nets],
) -> Result<Writers, NoMemory>
    requires writes { All (λ k. k < length b.now.nodes) writes.now }
    requires enable_uses { length enables.now ≡ length writes.now }
    requires value_uses { length values.now ≡ length writes.now }
    ensures enables { IfOk result (λ found. found.enables ≡ writing b.now.nodes writes.now enables.now) }
    ensures words { IfOk result (λ found. found.words.items ≡ writing b.now.nodes writes.now (write_words writes.now values.now)) }
{
    let mut found = Writers {
        enables: Nets::new(alloc),
        words: Vec::new(alloc),
    };
    for i in 0..writes.len() {
        let enable = enables.as_slice()[i];
        let write = writes.as_slice()[i];
        add_use(alloc, b, &mut found, enable, write, &values[i])?;
    }
    Ok(found)
}

/// Adds a use, if it may write.
fn add_use(
    alloc: Global,
    b: &Builder,
    found: &mut Writers,
    enable: u32,
    write: u32,
    value: &Nets,
) -> Result<(), NoMemory>
    requires { write < length b.now.nodes }
    ensures enables { OnOk result (found.new.enables ≡ found.old.enables ++ kept (may_write (constant_at (node_at b.now.nodes write))) enable []) }
    ensures words { OnOk result (found.new.words.items ≡ found.old.words.items ++ kept (may_write (constant_at (node_at b.now.nodes write))) (write ∷ value.now) []) }
{
    if !may_write(b.constant(write)) {
        return Ok(());
    }
    let mut word = Nets::from_slice(alloc, &[write])?;
    append(&mut word, value)?;
    found.enables.push(enable)?;
    match found.words.push(word) {
        Ok(()) => Ok(()),
        Err(_) => Err(NoMemory),
    }
}

/// Whether a use may write, by the constant of its write net.
fn may_write(constant: Option<bool>) -> bool
    ensures { result ≡ may_write constant }
{
    match constant {
        Some(bit) => bit,
        None => true,
    }
}
