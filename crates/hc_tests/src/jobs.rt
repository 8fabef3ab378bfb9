//! A job whose store or line fails, or takes a byte at a time: what the program itself can't be made to show. All else that
//! jobs answer is in the cases of `tests/`.
ghost use Rattle.std.specs.Prelude.{◌≡◌, false, IfOk};

use hc_outside::{MemSink, MemStore, Store};
use hc_run::{Status, hcc};
use std::alloc::Global;
use std::test::Fail;

const FIRST: &[u8] =
    b"set clock = external \"clk\";\nunsigned 4 x;\nvoid main(void) { x = 5; delay; x = x + 1; }\n";

const BUILD: &str = "build first.hc --edif first.edif";

const BUILT: &[u8] = b"built: gates 41, flip-flops 8, rams 0\n";

/// The words of a line.
fn words(alloc: Global, line: &str) -> Result<Vec<String>, Fail> {
    let mut words = Vec::new(alloc);
    for word in line.split(' ') {
        words.push(String::from_str(alloc, word)?)?;
    }
    Ok(words)
}

/// A store that holds `first.hc` alone.
fn holding(alloc: Global, source: &[u8]) -> Result<MemStore, Fail>
    ensures { IfOk result (λ store. (⟦<MemStore as Store>⟧.state store).is_open ≡ false) }
{
    let mut store = MemStore::new(alloc);
    store.put("first.hc", source)?;
    Ok(store)
}

/// Does the job of the words: the status, and the line.
fn run(alloc: Global, line: &str, store: &mut MemStore) -> Result<(Status, Vec<u8>), Fail>
    requires { (⟦<MemStore as Store>⟧.state store.old).is_open ≡ false }
    ensures closed { IfOk result (λ r. r.0 ≡ Status.Done → (⟦<MemStore as Store>⟧.state store.new).is_open ≡ false) }
{
    let words = words(alloc, line)?;
    let mut out = MemSink::new(alloc);
    let status = hcc(alloc, words.as_slice(), store, &mut out);
    Ok((status, Vec::from_slice(alloc, out.bytes())?))
}

/// The EDIF text of the first example.
fn first_text(alloc: Global) -> Result<Vec<u8>, Fail> {
    let mut store = holding(alloc, FIRST)?;
    let (_status, _line) = run(alloc, BUILD, &mut store)?;
    let text = store.get("first.edif").ok_or("no EDIF file")?;
    Ok(Vec::from_slice(alloc, text)?)
}

#[test]
fn appends_byte_for_byte_alike(rt: HostRuntime) -> Result<(), Fail> {
    let alloc = rt.alloc();
    let whole = first_text(alloc)?;
    let mut store = holding(alloc, FIRST)?;
    store.most(1);
    let (status, line) = run(alloc, BUILD, &mut store)?;
    assert!(rt; matches!(status, Status::Done));
    assert_eq!(rt; line.as_slice(), BUILT);
    assert_eq!(rt; store.get("first.edif"), Some(whole.as_slice()));
    Ok(())
}

/// What is left of a job on a store whose call of that number fails: the status, the line, the source, and the bytes of
/// the EDIF file, where it was made.
#[derive(Drop)]
struct Left {
    status: Status,
    line: Vec<u8>,
    source: Vec<u8>,
    text: Option<Vec<u8>>,
}

/// Builds the first example where the store's call of that number fails.
fn left_by(alloc: Global, call: u64) -> Result<Left, Fail> {
    let mut store = holding(alloc, FIRST)?;
    store.most(2000);
    store.fail(call)?;
    let (status, line) = run(alloc, BUILD, &mut store)?;
    let source = Vec::from_slice(alloc, store.get("first.hc").unwrap_or(&[]))?;
    let text = match store.get("first.edif") {
        Some(text) => Some(Vec::from_slice(alloc, text)?),
        None => None,
    };
    Ok(Left {
        status,
        line,
        source,
        text,
    })
}

#[test]
fn stops_at_the_call_that_fails(rt: HostRuntime) -> Result<(), Fail> {
    let alloc = rt.alloc();
    let whole = first_text(alloc)?;
    let mut longest = 0;
    for call in 0..100 {
        let left = left_by(alloc, call)?;
        assert_eq!(rt; left.source.as_slice(), FIRST, "call {call}");
        if matches!(left.status, Status::Done) {
            // The load, the creation, appends of 2,000 bytes, and the close that failed last.
            assert!(rt; call as usize >= 3 + whole.len() / 2000, "{call} calls");
            assert_eq!(rt; longest, whole.len());
            assert_eq!(rt; left.line.as_slice(), BUILT);
            return Ok(());
        }
        let line: &[u8] = if call == 0 {
            b"read fault: source\n"
        } else {
            b""
        };
        assert_eq!(rt; left.line.as_slice(), line, "call {call}");
        assert_eq!(rt;
            left.status.number(),
            if call == 0 { 3 } else { 4 },
            "call {call}"
        );
        assert_eq!(rt; left.text.is_some(), call > 1, "call {call}");
        let text = left.text.unwrap_or(Vec::new(alloc));
        assert!(rt; whole.starts_with(text.as_slice()), "call {call}");
        assert!(rt; text.len() >= longest, "call {call}");
        longest = text.len();
    }
    Err("each of 100 calls fails")?
}

#[test]
fn keeps_the_text_where_the_line_fails(rt: HostRuntime) -> Result<(), Fail> {
    let alloc = rt.alloc();
    let whole = first_text(alloc)?;
    let mut store = holding(alloc, FIRST)?;
    let words = words(alloc, BUILD)?;
    let mut out = MemSink::new(alloc);
    out.fail(0)?;
    let status = hcc(alloc, words.as_slice(), &mut store, &mut out);
    assert!(rt; matches!(status, Status::WriteFault));
    assert_eq!(rt; out.bytes(), b"".as_slice());
    assert_eq!(rt; store.get("first.edif"), Some(whole.as_slice()));
    Ok(())
}
