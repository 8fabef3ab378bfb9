ghost use Rattle.std.specs.Prelude.{
  ◌≡◌,
  ◌≢◌,
  ◌<◌,
  ◌≤◌,
  ◌^◌,
  ◌⊎◌,
  false,
  true,
  None,
  is_some,
  length,
  take,
  OnOk,
  OnErr,
  IfOk,
  IfSome,
  IsErrOf,
};
ghost use Rattle.hc_outside.specs.Store.{untold_store};
ghost use Rattle.hc_outside.specs.UntoldLaws.{untold_sound};

use crate::errors::{Failed, LoadErr, StoreErr};
use crate::file_id::FileId;
use crate::kept_files::KeptFiles;
use crate::report::refused;
use crate::store::Store;
use std::alloc::Global;
use std::fs::{OpenFile, OpenOptions};
use std::io::{Error, ErrorKind, Read, Write};
use std::rt::Files;
use std::{fs, io};

const CHUNK: usize = 8192;

const STANDARD_OUTPUT: &str = "/dev/stdout";

/// The files of the system. It tells nothing of what they hold, and is never sure.
///
/// It says on standard error which file a call of the system failed for, and the system's reason. It writes over no file
/// that it loaded or wrote before, nor over the standard output, whatever name is used: such a `create` fails and leaves
/// every file as it was. `main` and tests make it, from the runtime that they are given.
#[derive(Drop)]
pub struct FileStore<R: Files + Eprint + Drop> {
    rt: R,
    file: Option<R::File>,
    // the name of the file that was opened last for writing, for reports alone
    name: Option<String>,
    kept: Option<KeptFiles>,
    reads: u64,
    writes: u64,
    ghost reads_fit: { reads < 2 ^ 64 },
    ghost writes_fit: { writes < 2 ^ 64 },
}

impl<R: Files + Eprint + Drop> FileStore<R> {
    ghost use Rattle.hc_outside.specs.FileStore.{state_of};

    /// The files of the system; none is open.
    pub fn new(rt: R) -> FileStore<R>
        ensures { state_of result ≡ untold_store false 0 0 }
    {
        FileStore {
            rt,
            file: None,
            name: None,
            kept: None,
            reads: 0,
            writes: 0,
        }
    }
}

/// Reads to the end of a file, which has to come within the limit. Each turn takes at least one byte.
fn read_within<F: Read, E: Eprint>(
    alloc: Global,
    to: &E,
    name: &str,
    file: &mut F,
    limit: u64,
) -> Result<Vec<u8>, LoadErr>
    ensures within { IfOk result (λ bytes. length bytes.items ≤ limit) }
    ensures all { IfOk result (λ bytes. IfSome (F.remaining file.old) (λ left. bytes.items ≡ left)) }
    ensures longer { IsErrOf result LoadErr.Longer → IfSome (F.remaining file.old) (λ left. limit < length left) }
{
    let mut bytes = Vec::new(alloc);
    let mut chunk = [0u8; CHUNK];
    while bytes.len() as u64 <= limit {
        match file.read(&mut chunk) {
            Ok(0) => return Ok(bytes),
            Ok(n) => {
                if bytes.extend_from_slice(&chunk[..n]).is_err() {
                    return Err(LoadErr::NoMemory);
                }
            }
            Err(error) => return Err(load_err(refused(to, name, "read", &error))),
        }
    }
    Err(LoadErr::Longer)
}

fn load_err(error: StoreErr) -> LoadErr
    ensures { result ≢ LoadErr.Longer }
{
    match error {
        StoreErr::Failed => LoadErr::Failed,
        StoreErr::NoMemory => LoadErr::NoMemory,
    }
}

/// Opens a file for reading, and keeps which one it is.
fn open_to_read<R: Files>(rt: &R, kept: &mut KeptFiles, name: &str) -> io::Result<R::File> {
    let file = fs::open(rt, name)?;
    if let Some(id) = FileId::of(&file.metadata()?) {
        kept.add(id)?;
    }
    Ok(file)
}

fn read_file<R: Files + Eprint>(
    alloc: Global,
    rt: &R,
    kept: &mut KeptFiles,
    name: &str,
    limit: u64,
) -> Result<Vec<u8>, LoadErr>
    ensures { IfOk result (λ bytes. length bytes.items ≤ limit) }
{
    match open_to_read(rt, kept, name) {
        Ok(mut file) => read_within(alloc, rt, name, &mut file, limit),
        Err(error) => Err(load_err(refused(rt, name, "opened for reading", &error))),
    }
}

/// The file that the standard output is, if it is one.
fn standard_output<R: Files>(rt: &R) -> Option<FileId> {
    match fs::metadata(rt, STANDARD_OUTPUT) {
        Ok(metadata) => FileId::of(&metadata),
        Err(_) => None,
    }
}

/// Opens a file for writing and makes it empty. It fails for a file that is to be kept, and then this is as it was: it
/// is compared once it is open, and emptied only then.
fn open_to_write<R: Files>(rt: &R, kept: &mut KeptFiles, name: &str) -> io::Result<R::File> {
    let shown = standard_output(rt);
    kept.make_room()?;
    let file = OpenOptions::new().write(true).create(true).open(rt, name)?;
    let metadata = file.metadata()?;
    if let Some(id) = FileId::of(&metadata) {
        if kept.has(id) {
            return Err(Error::other("it was read or written before"));
        }
        if shown == Some(id) {
            return Err(Error::other("it is the standard output"));
        }
        kept.add(id)?;
    }
    if metadata.is_file() && metadata.len() > 0 {
        file.set_len(0)?;
    }
    Ok(file)
}

impl<R: Files + Eprint + Drop> FileStore<R> {
    ghost use Rattle.hc_outside.specs.FileStore.{state_of};

    /// The file of that name, emptied and opened for writing; its name is kept for reports.
    fn opened(&mut self, alloc: Global, name: &str) -> io::Result<R::File>
        ensures { state_of self.new ≡ state_of self.old }
    {
        self.name = Some(String::from_str(alloc, name)?);
        let kept = self.kept.get_or_insert_with(|| KeptFiles::new(alloc));
        open_to_write(&self.rt, kept, name)
    }

    /// Says why the file that was opened last can't be written.
    fn unwritten(&self, error: &Error) -> StoreErr {
        match &self.name {
            Some(name) => refused(&self.rt, name, "written", error),
            None => StoreErr::Failed,
        }
    }
}

impl<R: Files + Eprint + Drop> Store for FileStore<R> {
    ghost use Rattle.hc_outside.specs.FileStore.{state_of};

    ghost state = { state_of };

    fn load(
        &mut self,
        alloc: Global,
        name: &str,
        limit: u64,
        into: &mut Vec<u8>,
    ) -> Result<(), LoadErr> {
        let kept = self.kept.get_or_insert_with(|| KeptFiles::new(alloc));
        match read_file(alloc, &self.rt, kept, name, limit) {
            Ok(bytes) => {
                *into = bytes;
                Ok(())
            }
            Err(LoadErr::Failed) => {
                self.reads = self.reads.saturating_add(1);
                Err(LoadErr::Failed)
            }
            Err(LoadErr::Longer) => Err(LoadErr::Longer),
            Err(LoadErr::NoMemory) => Err(LoadErr::NoMemory),
        }
    }

    fn create(&mut self, alloc: Global, name: &str) -> Result<(), StoreErr> {
        match self.opened(alloc, name) {
            Ok(file) => {
                self.file = Some(file);
                Ok(())
            }
            Err(error) => match refused(&self.rt, name, "opened for writing", &error) {
                StoreErr::Failed => {
                    self.writes = self.writes.saturating_add(1);
                    Err(StoreErr::Failed)
                }
                StoreErr::NoMemory => Err(StoreErr::NoMemory),
            },
        }
    }

    fn append(&mut self, _alloc: Global, piece: &[u8]) -> Result<usize, StoreErr> {
        match write_some(&mut self.file, piece) {
            Ok(n) => Ok(n),
            Err(error) => match self.unwritten(&error) {
                StoreErr::Failed => {
                    self.writes = self.writes.saturating_add(1);
                    Err(StoreErr::Failed)
                }
                StoreErr::NoMemory => Err(StoreErr::NoMemory),
            },
        }
    }

    fn close(&mut self) -> Result<(), Failed> {
        match flushed(self.file.take()) {
            Ok(()) => Ok(()),
            Err(error) => {
                let _ = self.unwritten(&error);
                self.writes = self.writes.saturating_add(1);
                Err(Failed)
            }
        }
    }

    ghost sound = { λ s. untold_sound (is_some s.file) s.reads s.writes s.reads_fit s.writes_fit };
}

/// Hands what is left to the system and lets the file go.
fn flushed<F: Write + Drop>(file: Option<F>) -> io::Result<()> {
    match file {
        Some(mut file) => file.flush(),
        None => Ok(()),
    }
}

/// How many of the first bytes of a piece the file took. To take none of a piece that has some is a failure.
fn write_some<F: Write>(file: &mut Option<F>, piece: &[u8]) -> io::Result<usize>
    ensures at_most { IfOk result (λ n. n ≤ length piece.now) }
    ensures some { IfOk result (λ n. 0 < length piece.now → 0 < n) }
    ensures open { is_some file.new ≡ is_some file.old }
{
    match file {
        Some(file) => match file.write(piece) {
            Ok(0) if !piece.is_empty() => Err(Error::from(ErrorKind::WriteZero)),
            Ok(n) => Ok(n),
            Err(error) => Err(error),
        },
        None => Err(Error::from(ErrorKind::NotFound)),
    }
}
