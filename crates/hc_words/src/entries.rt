ghost use Rattle.std.specs.Prelude.{◌≡◌, ◌++◌, ◌∷◌, ℕ, List, map, IfOk, OnOk, MatchOption};
ghost use Rattle.std.specs.String.{string_bytes};
ghost use Rattle.hc_words.specs.Words as spec;
ghost use Rattle.hc_words.specs.Words.{Plain, head, named, value_in, option_says, says};
ghost use Rattle.hc_words.specs.Said.{entry_of, said_by, waiting, step_of};

use std::alloc::{AllocError, Global};

/// What words say: a word that stands alone, or an option with its value.
#[derive(Clone, Copy)]
pub(crate) enum Entry<'a> {
    Plain(&'a str),
    Given(&'a str, &'a str),
}

/// What one word is.
#[derive(Clone, Copy)]
pub(crate) enum Step<'a> {
    Says(Entry<'a>),
    /// An option whose value is the next word.
    Waits(&'a str),
    /// `--`: all words behind it stand alone.
    Ends,
    Wrong,
}

/// What the words of a job with two options say; `None` where one of them is wrong.
pub(crate) fn read_entries<'a>(
    alloc: Global,
    words: &'a [String],
    first: &'a str,
    second: &'a str,
) -> Result<Option<Vec<Entry<'a>>>, AllocError>
    ensures { IfOk result (λ found. MatchOption found
        (says first.now second.now None (map string_bytes words.now) ≡ None)
        (λ v. says first.now second.now None (map string_bytes words.now) ≡ Some (map entry_of v.items))) }
{
    let mut entries = Vec::new(alloc);
    let mut wait = None;
    let mut rest = words;
    while let Some((word, behind)) = rest.split_first() {
        match read_word(word.as_str(), wait, first, second) {
            Step::Says(entry) => {
                entries.push(entry)?;
                wait = None;
            }
            Step::Waits(name) => wait = Some(name),
            Step::Ends => {
                add_plain(behind, &mut entries)?;
                return Ok(Some(entries));
            }
            Step::Wrong => return Ok(None),
        }
        rest = behind;
    }
    match wait {
        None => Ok(Some(entries)),
        Some(_) => Ok(None),
    }
}

/// Adds words that stand alone.
fn add_plain<'a>(words: &'a [String], entries: &mut Vec<Entry<'a>>) -> Result<(), AllocError>
    ensures { OnOk result (map entry_of entries.new.items ≡ map entry_of entries.old.items ++ map Plain (map string_bytes words.now)) }
{
    for word in words {
        entries.push(Entry::Plain(word.as_str()))?;
    }
    Ok(())
}

/// What a word is, where an option may wait for its value.
#[tactic(auto, unfolding(crate::specs::Words::says))]
fn read_word<'a>(word: &'a str, wait: Option<&'a str>, first: &'a str, second: &'a str) -> Step<'a>
    ensures { (rest : List (List ℕ)) → says first.now second.now (waiting wait.entry) (word.now ∷ rest) ≡ said_by first.now second.now result rest }
{
    match wait {
        Some(name) => {
            if is_plain(word) {
                Step::Says(Entry::Given(name, word))
            } else {
                Step::Wrong
            }
        }
        None => {
            if is_plain(word) {
                Step::Says(Entry::Plain(word))
            } else if word == "--" {
                Step::Ends
            } else {
                option_step(word, first, second)
            }
        }
    }
}

/// What a word is that begins with `-`, and isn't `--`.
fn option_step<'a>(word: &'a str, first: &'a str, second: &'a str) -> Step<'a>
    ensures { (rest : List (List ℕ)) →
        option_says (named first.now second.now word.now) (value_in word.now) (says first.now second.now None rest) (λ name. says first.now second.now (Some name) rest)
        ≡ said_by first.now second.now result rest }
{
    let (head, value) = split_word(word);
    if head == first {
        with_value(first, value)
    } else if head == second {
        with_value(second, value)
    } else {
        Step::Wrong
    }
}

/// An option with its value, or one that waits for it.
fn with_value<'a>(name: &'a str, value: Option<&'a str>) -> Step<'a>
    ensures { result ≡ step_of name.entry value.entry }
{
    match value {
        Some(value) => Step::Says(Entry::Given(name, value)),
        None => Step::Waits(name),
    }
}

/// An option's word up to the first `=`, and its value behind it.
fn split_word(word: &str) -> (&str, Option<&str>)
    ensures head { result.0.now ≡ head word.now }
    ensures value { waiting result.1 ≡ value_in word.now }
{
    match word.split_once('=') {
        Some((head, value)) => (head, Some(value)),
        None => (word, None),
    }
}

/// Whether a word is a file name, a number or a value: it has at most one byte, or no `-` in front.
fn is_plain(word: &str) -> bool
    ensures { result ≡ spec.is_plain word.now }
{
    match word.as_bytes() {
        [first, _, ..] => *first != b'-',
        _ => true,
    }
}
