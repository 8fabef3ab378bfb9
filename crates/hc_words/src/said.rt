ghost use Rattle.std.specs.Prelude.{◌≡◌, ◌++◌, ◌∷◌, ℕ, List, map, MatchOption};
ghost use Rattle.hc_words.specs.Words as spec;
ghost use Rattle.hc_words.specs.Words.{listed, picked};
ghost use Rattle.hc_words.specs.Said.{entry_of, waiting, AreMany};

use crate::entries::Entry;

/// The word that stands alone, or the value of an option; `None` where there are two.
pub(crate) fn only<'a>(entries: &[Entry<'a>], name: Option<&str>) -> Option<Option<&'a str>>
    ensures { MatchOption result
        (AreMany (picked (waiting name.entry) (map entry_of entries.now)))
        (λ found. picked (waiting name.entry) (map entry_of entries.now) ≡ listed (waiting found)) }
{
    let mut found = None;
    for entry in entries {
        match (picked_of(entry, name), found) {
            (Some(_), Some(_)) => return None,
            (Some(value), None) => found = Some(value),
            (None, _) => {}
        }
    }
    Some(found)
}

/// What an entry is for `only`: its word, or its value where it is that option.
fn picked_of<'a>(entry: &Entry<'a>, name: Option<&str>) -> Option<&'a str>
    ensures { (others : List spec.Entry) →
        picked (waiting name.entry) (entry_of entry.now ∷ others) ≡ listed (waiting result) ++ picked (waiting name.entry) others }
{
    match (entry, name) {
        (Entry::Plain(word), None) => Some(word),
        (Entry::Plain(_), Some(_)) => None,
        (Entry::Given(_, _), None) => None,
        (Entry::Given(other, value), Some(name)) => {
            if *other == name { Some(value) } else { None }
        }
    }
}
