//! Lists of the numbers of objects.

ghost use Rattle.std.specs.Prelude.{◌≡◌, ℕ, nat_eq, IfOk};
ghost use Rattle.indexmap.specs.IndexSet.{contains};
ghost use Rattle.hc_core.specs.Rules.{is_in, repeated};
ghost use Rattle.hc_core.specs.Rules as rules;

use indexmap::IndexSet;
use std::alloc::{AllocError, Global};

/// The lesser of a number and another one, if there is another.
fn lesser(k: u32, other: Option<u32>) -> u32
    ensures { result ≡ rules.lesser k other }
{
    match other {
        None => k,
        Some(j) => { if j < k { j } else { k } }
    }
}

/// The least of some numbers.
pub(crate) fn least(numbers: &[u32]) -> Option<u32>
    ensures { result ≡ rules.least numbers.now }
{
    let mut found = None;
    let mut at = numbers.len();
    while 0 < at {
        at -= 1;
        found = Some(lesser(numbers[at], found));
    }
    found
}

/// The least of the numbers that stand twice among some. They are kept in a set, so that the time is linear.
pub(crate) fn least_repeated(alloc: Global, numbers: &[u32]) -> Result<Option<u32>, AllocError>
    ensures { IfOk result (λ found. found ≡ rules.least (repeated numbers.now)) }
{
    let mut seen = IndexSet::new(alloc);
    let mut found = None;
    let mut at = numbers.len();
    while 0 < at {
        at -= 1;
        match seen.insert(numbers[at]) {
            Err(_value) => {
                drop(seen);
                return Err(AllocError);
            }
            Ok(true) => {}
            Ok(false) => found = Some(lesser(numbers[at], found)),
        }
    }
    drop(seen);
    Ok(found)
}

/// The set of some numbers.
pub(crate) fn set_of(alloc: Global, numbers: &[u32]) -> Result<IndexSet<u32>, AllocError>
    ensures { IfOk result (λ set. (k : ℕ) → contains nat_eq set k ≡ is_in k numbers.now) }
{
    let mut set = IndexSet::new(alloc);
    let mut at = numbers.len();
    while 0 < at {
        at -= 1;
        match set.insert(numbers[at]) {
            Err(_value) => {
                drop(set);
                return Err(AllocError);
            }
            Ok(_new) => {}
        }
    }
    Ok(set)
}
