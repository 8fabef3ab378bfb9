//! What no clause says: that calls succeed while memory is left, and what the system answers.
ghost use Rattle.std.specs.Prelude.{◌≡◌, true, false, OnOk, OnErr, IsErrOf};
ghost use Rattle.hc_outside.specs.Count.{HasRisen};
ghost use Rattle.hc_outside.specs.Store.{Appended, AppendedFront, MovesWrites, Saved};

use hc_outside::{
    Failed, FileStore, LoadErr, MemSink, MemStore, OpenFile, StdSink, Store, StoreErr, WriteErr,
    write_all,
};
use std::alloc::Global;
use std::fs;
use std::os::unix::fs::symlink;
use std::test::Fail;

const FOLDER: &str = "hc_outside_test";

const KEPT: &str = "hc_outside_kept";

/// Appends a piece to the open file, through the sink over it. It stands for each writer of a text.
fn append_all<S: Store>(alloc: Global, piece: &[u8], store: &mut S) -> Result<(), WriteErr>
    requires { (S.state store.old).is_open ≡ true }
    ensures ok { OnOk result (Appended piece.now (S.state store.old) (S.state store.new)) }
    ensures err { OnErr result (AppendedFront piece.now (S.state store.old) (S.state store.new)) }
    ensures counts { MovesWrites (S.state store.old) (S.state store.new) }
    ensures fault { IsErrOf result WriteErr.WriteFault → HasRisen (S.state store.old).writes (S.state store.new).writes }
    ensures sure { IsErrOf result WriteErr.WriteFault → (S.state store.old).sure ≡ false }
{
    let mut file = OpenFile::over(store);
    write_all(alloc, piece, &mut file)
}

/// Makes a file that holds a text.
fn save<S: Store>(alloc: Global, name: &str, text: &[u8], store: &mut S) -> Result<(), WriteErr>
    requires { (S.state store.old).is_open ≡ false }
    ensures ok { OnOk result (Saved name.now text.now (S.state store.old) (S.state store.new)) }
    ensures closed { (S.state store.new).is_open ≡ false }
    ensures counts { MovesWrites (S.state store.old) (S.state store.new) }
    ensures fault { IsErrOf result WriteErr.WriteFault → HasRisen (S.state store.old).writes (S.state store.new).writes }
    ensures sure { IsErrOf result WriteErr.WriteFault → (S.state store.old).sure ≡ false }
{
    match store.create(alloc, name) {
        Ok(()) => {}
        Err(StoreErr::Failed) => return Err(WriteErr::WriteFault),
        Err(StoreErr::NoMemory) => return Err(WriteErr::NoMemory),
    }
    let written = append_all(alloc, text, store);
    match store.close() {
        Ok(()) => written,
        Err(Failed) => Err(WriteErr::WriteFault),
    }
}

/// The number of the first call that fails, or 4.
fn first_failure(alloc: Global, store: &mut MemStore) -> u64
    requires { (⟦<MemStore as Store>⟧.state store.old).is_open ≡ false }
{
    let mut into = Vec::new(alloc);
    if store.load(alloc, "a", 3, &mut into).is_err() {
        return 0;
    }
    if store.create(alloc, "b").is_err() {
        return 1;
    }
    if store.append(alloc, b"xyz").is_err() {
        return 2;
    }
    if store.close().is_err() {
        return 3;
    }
    4
}

#[test]
fn a_store_in_memory_fails_where_it_is_told_to(rt: HostRuntime) -> Result<(), Fail> {
    let alloc = rt.alloc();
    for call in 0..5 {
        let mut store = MemStore::new(alloc);
        store.put("a", b"abc")?;
        store.fail(call)?;
        assert_eq!(rt; first_failure(alloc, &mut store), call, "call {call}");
    }
    Ok(())
}

#[test]
fn a_store_in_memory_keeps_files(rt: HostRuntime) -> Result<(), Fail> {
    let alloc = rt.alloc();
    let mut store = MemStore::new(alloc);
    store.most(2);
    store.put("a", b"old")?;
    save(alloc, "b", b"hello", &mut store)?;
    save(alloc, "a", b"", &mut store)?;
    assert_eq!(rt; store.get("a"), Some(b"".as_slice()));
    assert_eq!(rt; store.get("b"), Some(b"hello".as_slice()));
    assert!(rt; store.get("c").is_none());

    let mut into = Vec::from_slice(alloc, b"before")?;
    assert!(rt; matches!(store.load(alloc, "b", 4, &mut into), Err(LoadErr::Longer)));
    assert!(rt; matches!(store.load(alloc, "c", 4, &mut into), Err(LoadErr::Failed)));
    assert_eq!(rt; into.as_slice(), b"before".as_slice());
    store.load(alloc, "b", 5, &mut into)?;
    assert_eq!(rt; into.as_slice(), b"hello".as_slice());
    Ok(())
}

#[test]
fn a_sink_in_memory_keeps_what_was_written(rt: HostRuntime) -> Result<(), Fail> {
    let alloc = rt.alloc();
    let mut sink = MemSink::new(alloc);
    sink.most(1);
    write_all(alloc, b"abc", &mut sink)?;
    sink.fail(4)?;
    assert!(rt;
        matches!(
            write_all(alloc, b"de", &mut sink),
            Err(WriteErr::WriteFault)
        )
    );
    assert_eq!(rt; sink.bytes(), b"abcd".as_slice());
    Ok(())
}

#[test]
fn files_of_the_system_are_loaded_and_made(rt: HostRuntime) -> Result<(), Fail> {
    let alloc = rt.alloc();
    let _ = fs::remove_dir_all(&rt, FOLDER);
    fs::create_dir(&rt, FOLDER)?;
    let mut store = FileStore::new(&rt);
    let text = vec![in alloc; 7u8; 20_000]?;
    let mut into = Vec::new(alloc);
    save(
        alloc,
        "hc_outside_test/a",
        b"longer than nothing",
        &mut store,
    )?;
    let mut other = FileStore::new(&rt);
    save(alloc, "hc_outside_test/a", b"", &mut other)?;
    store.load(alloc, "hc_outside_test/a", 0, &mut into)?;
    assert_eq!(rt; into.len(), 0);

    save(alloc, "hc_outside_test/b", &text, &mut store)?;
    assert!(rt;
        matches!(
            store.load(alloc, "hc_outside_test/b", 19_999, &mut into),
            Err(LoadErr::Longer)
        )
    );
    assert_eq!(rt; into.len(), 0);
    store.load(alloc, "hc_outside_test/b", 20_000, &mut into)?;
    assert_eq!(rt; into.as_slice(), text.as_slice());

    // A file that isn't there, a folder in a file's place, a folder that isn't there, and a full disk.
    assert!(rt;
        matches!(
            store.load(alloc, "hc_outside_test/c", 9, &mut into),
            Err(LoadErr::Failed)
        )
    );
    assert!(rt;
        matches!(
            store.load(alloc, FOLDER, 9, &mut into),
            Err(LoadErr::Failed)
        )
    );
    assert!(rt;
        matches!(
            save(alloc, FOLDER, b"", &mut store),
            Err(WriteErr::WriteFault)
        )
    );
    assert!(rt;
        matches!(
            save(alloc, "hc_outside_test/c/d", b"", &mut store),
            Err(WriteErr::WriteFault)
        )
    );
    assert!(rt;
        matches!(
            save(alloc, "/dev/full", b"full", &mut store),
            Err(WriteErr::WriteFault)
        )
    );
    assert_eq!(rt; into.as_slice(), text.as_slice());
    fs::remove_dir_all(&rt, FOLDER)?;
    Ok(())
}

/// Whether a file of that name can't be made.
fn is_kept<S: Store>(alloc: Global, name: &str, store: &mut S) -> bool
    requires { (S.state store.old).is_open ≡ false }
    ensures { (S.state store.new).is_open ≡ false }
{
    matches!(
        save(alloc, name, b"other", store),
        Err(WriteErr::WriteFault)
    )
}

#[test]
fn a_file_that_was_read_or_written_is_kept(rt: HostRuntime) -> Result<(), Fail> {
    let alloc = rt.alloc();
    let _ = fs::remove_dir_all(&rt, KEPT);
    fs::create_dir(&rt, KEPT)?;
    fs::write(&rt, "hc_outside_kept/a", "source")?;
    fs::hard_link(&rt, "hc_outside_kept/a", "hc_outside_kept/hard")?;
    symlink(&rt, "a", "hc_outside_kept/soft")?;
    let mut store = FileStore::new(&rt);
    let mut into = Vec::new(alloc);
    store.load(alloc, "hc_outside_kept/a", 9, &mut into)?;
    save(alloc, "hc_outside_kept/b", b"text", &mut store)?;
    assert!(rt;
        is_kept(alloc, "hc_outside_kept/a", &mut store),
        "its own name"
    );
    assert!(rt;
        is_kept(alloc, "./hc_outside_kept/../hc_outside_kept/a", &mut store),
        "another path"
    );
    assert!(rt;
        is_kept(alloc, "hc_outside_kept/hard", &mut store),
        "a hard link"
    );
    assert!(rt;
        is_kept(alloc, "hc_outside_kept/soft", &mut store),
        "a symbolic link"
    );
    assert!(rt;
        is_kept(alloc, "hc_outside_kept/b", &mut store),
        "what was written"
    );
    store.load(alloc, "hc_outside_kept/soft", 9, &mut into)?;
    assert_eq!(rt; into.as_slice(), b"source".as_slice());
    store.load(alloc, "hc_outside_kept/b", 9, &mut into)?;
    assert_eq!(rt; into.as_slice(), b"text".as_slice());
    fs::remove_dir_all(&rt, KEPT)?;
    Ok(())
}

#[test]
fn the_standard_output_is_written_to(rt: HostRuntime) -> Result<(), Fail> {
    write_all(rt.alloc(), b"one line\n", &mut StdSink::new(&rt))?;
    Ok(())
}
