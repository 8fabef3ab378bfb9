ghost use Rattle.std.specs.Prelude.{◌≡◌, ◌≤◌, length};
ghost use Rattle.hc_tree.specs.declared.refusal.Detail.TheVariants as detail;
ghost use Rattle.hc_tree.specs.declared.refusal.FrontErr.TheVariants.{Refused};
ghost use Rattle.hc_tree.specs.declared.refusal.Rule.TheVariants.{S7, S9};
ghost use Rattle.hc_scope.specs.Reading.{Says};

use hc_tree::{Detail, FrontErr, Ident, Name, Place, Refusal, Rule};
use std::alloc::Global;

/// The refusal that this rule or limit is broken at this place (line and column from 1), with no detail.
pub fn broken(rule: Rule, place: Place) -> FrontErr
    ensures { result ≡ Refused (record { rule = rule; place = place; detail = detail.Nothing }) }
{
    FrontErr::Refused(Refusal {
        rule,
        place,
        detail: Detail::Nothing,
    })
}

/// The refusal that this rule is broken at a name, with the name as its detail; want of memory where there is none for the
/// name.
pub fn broken_name(alloc: Global, rule: Rule, x: &Ident) -> FrontErr
    ensures { Says (record { rule = rule; place = x.now.place; detail = detail.Name x.now.name }) result }
{
    match Name::new(alloc, x.name.as_bytes()) {
        Ok(name) => FrontErr::Refused(Refusal {
            rule,
            place: x.place,
            detail: Detail::Name(name),
        }),
        Err(_) => FrontErr::NoMemory,
    }
}

/// The refusal that this rule is broken at this place, with a word of the language as its detail; want of memory where there
/// is none for the word.
pub fn broken_word(alloc: Global, rule: Rule, place: Place, word: &[u8]) -> FrontErr
    requires { length word.now ≤ 255 }
    ensures { Says (record { rule = rule; place = place; detail = detail.Name word.now }) result }
{
    match Name::new(alloc, word) {
        Ok(name) => FrontErr::Refused(Refusal {
            rule,
            place,
            detail: Detail::Name(name),
        }),
        Err(_) => FrontErr::NoMemory,
    }
}

/// The refusal that two widths differ, in bits: S9 at this place, with both as its detail.
pub fn widths_differ(left: u32, right: u32, place: Place) -> FrontErr
    ensures { result ≡ Refused (record { rule = S9; place = place; detail = detail.Pair left right }) }
{
    FrontErr::Refused(Refusal {
        rule: Rule::S9,
        place,
        detail: Detail::Pair(u128::from(left), u128::from(right)),
    })
}

/// The refusal that there are so many where so many are wanted: S7 at this place, with both as its detail.
pub fn wrong_number(found: u128, wanted: u128, place: Place) -> FrontErr
    ensures { result ≡ Refused (record { rule = S7; place = place; detail = detail.Pair found wanted }) }
{
    FrontErr::Refused(Refusal {
        rule: Rule::S7,
        place,
        detail: Detail::Pair(found, wanted),
    })
}
