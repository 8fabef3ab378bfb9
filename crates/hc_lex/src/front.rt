ghost use Rattle.std.specs.Prelude.{◌≡◌, ◌<◌, ◌≤◌, length, slice_index, IfSome, true};
ghost use Rattle.std.specs.List.{prefix_len};
ghost use Rattle.hc_lex.specs.Front as spec;
ghost use Rattle.hc_lex.specs.Front.{IsWithin};

use crate::mark::{Mark, one, three, two};
use crate::number::number;

/// What kind of token it is. A number has its value; a word and a text have their bytes in the source.
#[derive(Clone, Copy, Debug)]
pub(crate) enum Kind {
    Word,
    Number(u128),
    Text,
    Mark(Mark),
}

/// What stands at the front of a text: its end, a blank or comment of some bytes, a token of some bytes, or a byte with
/// which no token begins.
#[derive(Clone, Copy, Debug)]
pub(crate) enum Front {
    End,
    Skip(usize),
    Token(Kind, usize),
    Bad,
}

fn is_blank(b: u8) -> bool
    ensures { result ≡ spec.is_blank b }
{
    b == b' ' || (9 <= b && b <= 13)
}

fn is_word_byte(b: u8) -> bool
    ensures { result ≡ spec.is_word_byte b }
{
    b.is_ascii_alphanumeric() || b == b'_'
}

fn is_text_byte(b: u8) -> bool
    ensures { result ≡ spec.is_text_byte b }
{
    32 <= b && b <= 126 && b != b'"' && b != b'\\' && b != b'%'
}

/// The byte at a place, or 0 behind the end.
fn byte(text: &[u8], at: usize) -> u8
    ensures value { result ≡ slice_index text.now at }
    ensures within { 0 < result → at < length text.now }
{
    if at < text.len() { text[at] } else { 0 }
}

/// How many letters, digits and `_` stand at the front.
fn run_len(text: &[u8]) -> usize
    ensures value { result ≡ prefix_len spec.is_word_byte text.now }
    ensures within { result ≤ length text.now }
    ensures moves { spec.is_word_byte (slice_index text.now 0) ≡ true → 0 < length text.now → 0 < result }
{
    let mut end = 0;
    while end < text.len() && is_word_byte(text[end]) {
        end += 1;
    }
    end
}

/// How many bytes that a text can hold stand at the front.
fn inner_len(text: &[u8]) -> usize
    ensures value { result ≡ prefix_len spec.is_text_byte text.now }
    ensures within { result ≤ length text.now }
{
    let mut end = 0;
    while end < text.len() && is_text_byte(text[end]) {
        end += 1;
    }
    end
}

/// How many bytes stand before the next line feed or the end.
fn line_len(text: &[u8]) -> usize
    ensures value { result ≡ prefix_len spec.is_in_line text.now }
    ensures within { result ≤ length text.now }
{
    let mut end = 0;
    while end < text.len() && text[end] != b'\n' {
        end += 1;
    }
    end
}

/// How many bytes stand up to the next `*/` and with it, if there is one.
fn closed(text: &[u8]) -> Option<usize>
    ensures value { result ≡ spec.closed text.entry.now }
    ensures within { IfSome result (λ n. n ≤ length text.entry.now) }
{
    let mut passed: usize = 0;
    let mut rest = text;
    while let [b, behind @ ..] = rest {
        if *b == b'*' && byte(behind, 0) == b'/' {
            return Some(passed + 2);
        }
        passed += 1;
        rest = behind;
    }
    None
}

/// A comment from `/*` on.
#[tactic(auto, unfolding(crate::specs::Front::block_comment))]
fn block_comment(bytes: &[u8]) -> Front
    requires { 2 ≤ length bytes.now }
    ensures value { result ≡ spec.block_comment bytes.now }
    ensures within { IsWithin result bytes.now }
{
    match closed(&bytes[2..]) {
        None => Front::Bad,
        Some(len) => Front::Skip(len + 2),
    }
}

/// A text from its first quote on.
#[tactic(auto, unfolding(crate::specs::Front::text))]
fn text(bytes: &[u8]) -> Front
    requires { 0 < length bytes.now }
    ensures value { result ≡ spec.text bytes.now }
    ensures within { IsWithin result bytes.now }
{
    let end = 1 + inner_len(&bytes[1..]);
    if byte(bytes, end) == b'"' {
        Front::Token(Kind::Text, end + 1)
    } else {
        Front::Bad
    }
}

/// A run of letters, digits and `_` that begins with a digit.
#[tactic(auto, unfolding(crate::specs::Front::numbered))]
fn numbered(bytes: &[u8]) -> Front
    requires some { 0 < length bytes.now }
    requires run { spec.is_word_byte (slice_index bytes.now 0) ≡ true }
    ensures value { result ≡ spec.numbered bytes.now }
    ensures within { IsWithin result bytes.now }
{
    let len = run_len(bytes);
    match number(&bytes[..len]) {
        None => Front::Bad,
        Some(value) => Front::Token(Kind::Number(value), len),
    }
}

/// The longest mark at the front.
#[tactic(auto, unfolding(crate::specs::Front::marked))]
fn marked(bytes: &[u8]) -> Front
    requires { 0 < length bytes.now }
    ensures value { result ≡ spec.marked bytes.now }
    ensures within { IsWithin result bytes.now }
{
    let (b, c, d) = (bytes[0], byte(bytes, 1), byte(bytes, 2));
    match three(b, c, d) {
        Some(mark) => Front::Token(Kind::Mark(mark), 3),
        None => match two(b, c) {
            Some(mark) => Front::Token(Kind::Mark(mark), 2),
            None => match one(b) {
                Some(mark) => Front::Token(Kind::Mark(mark), 1),
                None => Front::Bad,
            },
        },
    }
}

/// What stands at the front.
#[tactic(auto, unfolding(crate::specs::Front::front))]
pub(crate) fn at_front(bytes: &[u8]) -> Front
    ensures value { result ≡ spec.front bytes.now }
    ensures within { IsWithin result bytes.now }
{
    if bytes.is_empty() {
        return Front::End;
    }
    let b = bytes[0];
    if is_blank(b) {
        return Front::Skip(1);
    }
    if b.is_ascii_digit() {
        return numbered(bytes);
    }
    if is_word_byte(b) {
        return Front::Token(Kind::Word, run_len(bytes));
    }
    if b == b'"' {
        return text(bytes);
    }
    let next = byte(bytes, 1);
    if b == b'/' && next == b'/' {
        return Front::Skip(line_len(bytes));
    }
    if b == b'/' && next == b'*' {
        return block_comment(bytes);
    }
    marked(bytes)
}
