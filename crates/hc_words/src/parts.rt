ghost use Rattle.std.specs.Prelude.{◌≡◌, ◌≢◌, ℕ, List, Option, None, Some, IfOk, IfErr, MatchOption};
ghost use Rattle.hc_words.specs.Said.{waiting};
ghost use Rattle.hc_words.specs.Answer.{IfUsage, NoneIs, HasParts};

use crate::file_name::{FileName, NoMemory};
use crate::job::Job;
use crate::kind::Kind;
use crate::number::read_threads;
use crate::words::WordsErr;
use std::alloc::Global;

/// The job of a kind that has this word and these values of its options.
pub(crate) fn job_of(
    alloc: Global,
    kind: Kind,
    word: Option<&str>,
    first: Option<&str>,
    second: Option<&str>,
) -> Result<Job, WordsErr>
    ensures job { IfOk result (HasParts kind (waiting word.entry) (waiting first.entry) (waiting second.entry)) }
    ensures usage { IfErr result (IfUsage (NoneIs (HasParts kind (waiting word.entry) (waiting first.entry) (waiting second.entry)))) }
{
    match kind {
        Kind::Build => build(alloc, word, first, second),
        Kind::Check => check(alloc, word, first, second),
        Kind::Sim => sim(alloc, word, first, second),
        Kind::Nsim => nsim(alloc, word, first, second),
        Kind::Compare => compare(alloc, word, first, second),
        Kind::Gen => ring(word, first, second),
        Kind::Cells => cells(word, first, second),
    }
}

/// A job that builds, with an option at least.
fn build(
    alloc: Global,
    word: Option<&str>,
    edif: Option<&str>,
    verilog: Option<&str>,
) -> Result<Job, WordsErr>
    ensures job { IfOk result (HasParts Kind.Build (waiting word.entry) (waiting edif.entry) (waiting verilog.entry)) }
    ensures usage { IfErr result (IfUsage (NoneIs (HasParts Kind.Build (waiting word.entry) (waiting edif.entry) (waiting verilog.entry)))) }
{
    match word {
        Some(file) => {
            if edif.is_none() && verilog.is_none() {
                return Err(WordsErr::Usage);
            }
            let file = name(alloc, file)?;
            let edif = name_if(alloc, edif)?;
            let verilog = name_if(alloc, verilog)?;
            Ok(Job::Build {
                file,
                edif,
                verilog,
            })
        }
        None => Err(WordsErr::Usage),
    }
}

/// A job that checks.
fn check(
    alloc: Global,
    word: Option<&str>,
    first: Option<&str>,
    second: Option<&str>,
) -> Result<Job, WordsErr>
    ensures job { IfOk result (HasParts Kind.Check (waiting word.entry) (waiting first.entry) (waiting second.entry)) }
    ensures usage { IfErr result (IfUsage (NoneIs (HasParts Kind.Check (waiting word.entry) (waiting first.entry) (waiting second.entry)))) }
{
    match alone(word, first, second) {
        Some(file) => {
            let file = name(alloc, file)?;
            Ok(Job::Check { file })
        }
        None => Err(WordsErr::Usage),
    }
}

/// A job that runs a source.
fn sim(
    alloc: Global,
    word: Option<&str>,
    stim: Option<&str>,
    trace: Option<&str>,
) -> Result<Job, WordsErr>
    ensures job { IfOk result (HasParts Kind.Sim (waiting word.entry) (waiting stim.entry) (waiting trace.entry)) }
    ensures usage { IfErr result (IfUsage (NoneIs (HasParts Kind.Sim (waiting word.entry) (waiting stim.entry) (waiting trace.entry)))) }
{
    match all(word, stim, trace) {
        Some((file, stim, trace)) => {
            let file = name(alloc, file)?;
            let stim = name(alloc, stim)?;
            let trace = name(alloc, trace)?;
            Ok(Job::Sim { file, stim, trace })
        }
        None => Err(WordsErr::Usage),
    }
}

/// A job that runs a netlist.
fn nsim(
    alloc: Global,
    word: Option<&str>,
    stim: Option<&str>,
    trace: Option<&str>,
) -> Result<Job, WordsErr>
    ensures job { IfOk result (HasParts Kind.Nsim (waiting word.entry) (waiting stim.entry) (waiting trace.entry)) }
    ensures usage { IfErr result (IfUsage (NoneIs (HasParts Kind.Nsim (waiting word.entry) (waiting stim.entry) (waiting trace.entry)))) }
{
    match all(word, stim, trace) {
        Some((file, stim, trace)) => {
            let file = name(alloc, file)?;
            let stim = name(alloc, stim)?;
            let trace = name(alloc, trace)?;
            Ok(Job::Nsim { file, stim, trace })
        }
        None => Err(WordsErr::Usage),
    }
}

/// A job that runs a source and a netlist.
fn compare(
    alloc: Global,
    word: Option<&str>,
    net: Option<&str>,
    stim: Option<&str>,
) -> Result<Job, WordsErr>
    ensures job { IfOk result (HasParts Kind.Compare (waiting word.entry) (waiting net.entry) (waiting stim.entry)) }
    ensures usage { IfErr result (IfUsage (NoneIs (HasParts Kind.Compare (waiting word.entry) (waiting net.entry) (waiting stim.entry)))) }
{
    match all(word, net, stim) {
        Some((file, net, stim)) => {
            let file = name(alloc, file)?;
            let net = name(alloc, net)?;
            let stim = name(alloc, stim)?;
            Ok(Job::Compare { file, net, stim })
        }
        None => Err(WordsErr::Usage),
    }
}

/// A job that makes a ring.
fn ring(word: Option<&str>, first: Option<&str>, second: Option<&str>) -> Result<Job, WordsErr>
    ensures job { IfOk result (HasParts Kind.Gen (waiting word.entry) (waiting first.entry) (waiting second.entry)) }
    ensures usage { IfErr result (IfUsage (NoneIs (HasParts Kind.Gen (waiting word.entry) (waiting first.entry) (waiting second.entry)))) }
{
    match alone(word, first, second) {
        Some(number) => match read_threads(number) {
            Some(n) => Ok(Job::Gen { n }),
            None => Err(WordsErr::Usage),
        },
        None => Err(WordsErr::Usage),
    }
}

/// A job that writes the cells.
fn cells(word: Option<&str>, first: Option<&str>, second: Option<&str>) -> Result<Job, WordsErr>
    ensures job { IfOk result (HasParts Kind.Cells (waiting word.entry) (waiting first.entry) (waiting second.entry)) }
    ensures usage { IfErr result (IfUsage (NoneIs (HasParts Kind.Cells (waiting word.entry) (waiting first.entry) (waiting second.entry)))) }
{
    if word.is_some() {
        return Err(WordsErr::Usage);
    }
    if first.is_some() {
        return Err(WordsErr::Usage);
    }
    if second.is_some() {
        return Err(WordsErr::Usage);
    }
    Ok(Job::Cells)
}

/// The word, where no option has a value.
fn alone<'a>(word: Option<&'a str>, first: Option<&str>, second: Option<&str>) -> Option<&'a str>
    ensures { MatchOption result
        ((a : List ℕ) → waiting word.entry ≡ Some a → waiting first.entry ≡ None → waiting second.entry ≡ None → ⊥)
        (λ a. (waiting word.entry ≡ Some a.now) × (waiting first.entry ≡ None) × (waiting second.entry ≡ None)) }
{
    if first.is_some() || second.is_some() {
        return None;
    }
    word
}

/// The word and both values, where all are there.
fn all<'a>(
    word: Option<&'a str>,
    first: Option<&'a str>,
    second: Option<&'a str>,
) -> Option<(&'a str, &'a str, &'a str)>
    ensures { MatchOption result
        ((a b d : List ℕ) → waiting word.entry ≡ Some a → waiting first.entry ≡ Some b → waiting second.entry ≡ Some d → ⊥)
        (λ p. (waiting word.entry ≡ Some p.0.now) × (waiting first.entry ≡ Some p.1.now) × (waiting second.entry ≡ Some p.2.now)) }
{
    match word {
        Some(word) => match first {
            Some(first) => match second {
                Some(second) => Some((word, first, second)),
                None => None,
            },
            None => None,
        },
        None => None,
    }
}

/// A file name.
fn name(alloc: Global, text: &str) -> Result<FileName, WordsErr>
    ensures ok { IfOk result (λ f. f ≡ text.now) }
    ensures err { IfErr result (λ e. e ≡ WordsErr.NoMemory) }
{
    match FileName::new(alloc, text) {
        Ok(name) => Ok(name),
        Err(NoMemory) => Err(WordsErr::NoMemory),
    }
}

/// A file name, where there is one.
fn name_if(alloc: Global, text: Option<&str>) -> Result<Option<FileName>, WordsErr>
    ensures ok { IfOk result (λ f. f ≡ waiting text.entry) }
    ensures err { IfErr result (λ e. e ≡ WordsErr.NoMemory) }
{
    match text {
        Some(text) => match name(alloc, text) {
            Ok(name) => Ok(Some(name)),
            Err(e) => Err(e),
        },
        None => Ok(None),
    }
}
