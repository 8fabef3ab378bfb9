ghost use Rattle.std.specs.Prelude.{◌≡◌, ◌≢◌, ◌↔◌, ℕ, List, [], ◌∷◌, ◌++◌, map, Option, None, Some, IsTrue, IfOk, IfErr, MatchOption};
ghost use Rattle.std.specs.String.{string_bytes};
ghost use Rattle.hc_words.specs.Kind.{first_option, second_option};
ghost use Rattle.hc_words.specs.Words.{listed};
ghost use Rattle.hc_words.specs.Said.{entry_of, waiting};
ghost use Rattle.hc_words.specs.IsJob.{IsJob, Differ};
ghost use Rattle.hc_words.specs.Answer.{
  HasNoJob,
  IfUsage,
  NoneIs,
  HasParts,
  FitsParts,
  FitsEntries,
  FitsWords,
};

use crate::entries::{Entry, read_entries};
use crate::job::Job;
use crate::kind::{Kind, kind_of, options_of};
use crate::parts::job_of;
use crate::said::only;
use std::alloc::Global;

/// Why no job was read.
#[derive(Debug, Drop)]
pub enum WordsErr {
    /// The words have no job.
    Usage,
    /// There wasn't enough memory.
    NoMemory,
}

/// The job of the words after the program's name.
///
/// `Usage` comes exactly where they have none.
pub fn read_words(alloc: Global, words: &[String]) -> Result<Job, WordsErr>
    ensures job { IfOk result (IsJob (map string_bytes words.now)) }
    ensures usage { IfErr result (IfUsage (HasNoJob (map string_bytes words.now))) }
{
    match words.split_first() {
        Some((name, rest)) => match kind_of(name.as_str()) {
            Some(kind) => read_job(alloc, kind, rest),
            None => Err(WordsErr::Usage),
        },
        None => Err(WordsErr::Usage),
    }
}

/// The job of a kind that the words behind its name say.
fn read_job(alloc: Global, kind: Kind, words: &[String]) -> Result<Job, WordsErr>
    ensures job { IfOk result (FitsWords kind (map string_bytes words.now)) }
    ensures usage { IfErr result (IfUsage (NoneIs (FitsWords kind (map string_bytes words.now)))) }
{
    let (first, second) = options_of(kind);
    match read_entries(alloc, words, first, second) {
        Ok(Some(entries)) => fit_entries(alloc, kind, first, second, entries.as_slice()),
        Ok(None) => Err(WordsErr::Usage),
        Err(_) => Err(WordsErr::NoMemory),
    }
}

/// The job of a kind that has these entries.
fn fit_entries(
    alloc: Global,
    kind: Kind,
    first: &str,
    second: &str,
    entries: &[Entry],
) -> Result<Job, WordsErr>
    requires first { first.now ≡ first_option kind }
    requires second { second.now ≡ second_option kind }
    ensures job { IfOk result (FitsEntries kind (map entry_of entries.now)) }
    ensures usage { IfErr result (IfUsage (NoneIs (FitsEntries kind (map entry_of entries.now)))) }
{
    match only(entries, None) {
        Some(word) => match only(entries, Some(first)) {
            Some(one) => match only(entries, Some(second)) {
                Some(other) => fit_parts(alloc, kind, word, one, other),
                None => Err(WordsErr::Usage),
            },
            None => Err(WordsErr::Usage),
        },
        None => Err(WordsErr::Usage),
    }
}

/// The job of a kind that has this word and these values of its options, where no two of them are equal.
fn fit_parts(
    alloc: Global,
    kind: Kind,
    word: Option<&str>,
    first: Option<&str>,
    second: Option<&str>,
) -> Result<Job, WordsErr>
    ensures job { IfOk result (FitsParts kind (waiting word.entry) (waiting first.entry) (waiting second.entry)) }
    ensures usage { IfErr result (IfUsage (NoneIs (FitsParts kind (waiting word.entry) (waiting first.entry) (waiting second.entry)))) }
{
    if !differ(word, first) {
        return Err(WordsErr::Usage);
    }
    if !differ(word, second) {
        return Err(WordsErr::Usage);
    }
    if !differ(first, second) {
        return Err(WordsErr::Usage);
    }
    job_of(alloc, kind, word, first, second)
}

/// Whether two values, where both are there, are not equal.
fn differ(one: Option<&str>, other: Option<&str>) -> bool
    ensures { IsTrue result ↔ Differ (listed (waiting one.entry)) (listed (waiting other.entry)) }
{
    match (one, other) {
        (Some(one), Some(other)) => one != other,
        (Some(_), None) => true,
        (None, Some(_)) => true,
        (None, None) => true,
    }
}
