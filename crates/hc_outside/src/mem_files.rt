ghost use Rattle.std.specs.Prelude.{
  ◌≡◌,
  ◌<◌,
  ◌++◌,
  ◌∷◌,
  [],
  true,
  None,
  length,
  ◌≤◌,
  ◌↔◌,
  IsErrOf,
  OnOk,
  OnErr,
  IfSome,
  IfOk,
  MatchOption,
};
ghost use Rattle.hc_outside.specs.MemFiles.{name_at, bytes_at, names, find_file, is_place, look_up, Sets};

use crate::errors::{LoadErr, NoMemory};
use crate::mem_file::MemFile;
use std::alloc::Global;

/// The first place of a name.
fn place(files: &[MemFile], name: &str) -> Option<usize>
    ensures place { MatchOption result (find_file name.now files.now ≡ None)
        (λ i. is_place i name.now (names files.now) ≡ true) }
    ensures within { IfSome result (λ i. i < length files.now) }
{
    for (i, file) in files.iter().enumerate() {
        if file.is_named(name) {
            return Some(i);
        }
    }
    None
}

/// The bytes of the file of that name, where there is one.
pub(crate) fn bytes_of<'a>(files: &'a [MemFile], name: &str) -> Option<&'a [u8]>
    ensures { MatchOption result (look_up files.now name.now ≡ None) (λ bytes. look_up files.now name.now ≡ Some bytes.now) }
{
    match place(files, name) {
        Some(i) => {
            let file = &files[i];
            Some(file.bytes())
        }
        None => None,
    }
}

/// Makes the file of that name hold these bytes, and says where it stands.
pub(crate) fn set_file(
    files: &mut Vec<MemFile>,
    alloc: Global,
    name: &str,
    bytes: &[u8],
) -> Result<usize, NoMemory>
    ensures sets { OnOk result (Sets name.now bytes.now files.old.items files.new.items) }
    ensures place { IfOk result (λ i. is_place i name.now (names files.new.items) ≡ true) }
    ensures err { OnErr result (files.new.items ≡ files.old.items) }
{
    match place(files, name) {
        Some(i) => {
            replace_at(files, i, alloc, bytes)?;
            Ok(i)
        }
        None => {
            let i = files.len();
            push_file(files, alloc, name, bytes)?;
            Ok(i)
        }
    }
}

fn push_file(
    files: &mut Vec<MemFile>,
    alloc: Global,
    name: &str,
    bytes: &[u8],
) -> Result<(), NoMemory>
    ensures ok { OnOk result (files.new.items ≡ files.old.items ++ (name.now, bytes.now) ∷ []) }
    ensures err { OnErr result (files.new.items ≡ files.old.items) }
{
    let file = MemFile::new(alloc, name, bytes)?;
    match files.push(file) {
        Ok(()) => Ok(()),
        Err(_) => Err(NoMemory),
    }
}

/// Puts bytes in the place of what the file at that place held.
fn replace_at(
    files: &mut Vec<MemFile>,
    i: usize,
    alloc: Global,
    bytes: &[u8],
) -> Result<(), NoMemory>
    requires { is_place i (name_at files.old.items i) (names files.old.items) ≡ true }
    ensures ok { OnOk result (Sets (name_at files.old.items i) bytes.now files.old.items files.new.items) }
    ensures err { OnErr result (files.new.items ≡ files.old.items) }
{
    files[i].replace(alloc, bytes)
}

/// Puts bytes at the end of the file at that place.
pub(crate) fn append_at(files: &mut Vec<MemFile>, i: usize, bytes: &[u8]) -> Result<(), NoMemory>
    requires { is_place i (name_at files.old.items i) (names files.old.items) ≡ true }
    ensures ok { OnOk result
        (Sets (name_at files.old.items i) (bytes_at files.old.items i ++ bytes.now) files.old.items files.new.items) }
    ensures err { OnErr result (files.new.items ≡ files.old.items) }
{
    files[i].append(bytes)
}

/// Puts bytes in the place of what `into` held, if they are within a limit.
pub(crate) fn copy_within(
    alloc: Global,
    bytes: &[u8],
    limit: u64,
    into: &mut Vec<u8>,
) -> Result<(), LoadErr>
    ensures ok { OnOk result (into.new.items ≡ bytes.now) }
    ensures within { OnOk result (length bytes.now ≤ limit) }
    ensures err { OnErr result (into.new.items ≡ into.old.items) }
    ensures longer { IsErrOf result LoadErr.Longer ↔ (limit < length bytes.now) }
    ensures failed { IsErrOf result LoadErr.Failed → ⊥ }
{
    if bytes.len() as u64 > limit {
        return Err(LoadErr::Longer);
    }
    match Vec::from_slice(alloc, bytes) {
        Ok(copy) => {
            *into = copy;
            Ok(())
        }
        Err(_) => Err(LoadErr::NoMemory),
    }
}
