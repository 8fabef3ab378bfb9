ghost use Rattle.std.specs.Prelude.{◌≡◌, ◌≤◌, ◌<◌, ◌-◌, ◌^◌, true};
ghost use Rattle.hc_tree.specs.declared.refusal.Rule.TheVariants.{S9};
ghost use Rattle.hc_tree.specs.declared.refusal.Detail.TheVariants.{Nothing, Pair};
ghost use Rattle.hc_width.specs.Whole.{fits, modulo};
ghost use Rattle.hc_width.specs.Judged.{Finds};
ghost use Rattle.hc_width.specs.Unary.{fitted};

use crate::whole::Whole;
use hc_num::Num;
use hc_tree::{Detail, Place, Refusal, Rule};

/// A constant as a number of a type, `width` being 1 to 128 bits: modulo 2^width. S11 where it isn't from -2^(width - 1)
/// to 2^width - 1, whether the type is signed or not.
#[tactic(auto, unfolding(crate::specs::Unary::fitted))]
pub fn fit(v: Whole, width: u32, signed: bool, place: Place) -> Result<Num, Refusal>
    requires least { 1 ≤ width }
    requires most { width ≤ 128 }
    ensures { Finds (fitted width signed v) place result }
{
    if fits(v, width) {
        Ok(Num::new(width, signed, modulo(v, width)))
    } else {
        Err(refusal(Rule::S11, place))
    }
}

// Whether the constant is from -2^(width - 1) to 2^width - 1.
pub(crate) fn fits(v: Whole, width: u32) -> bool
    requires least { 1 ≤ width }
    requires most { width ≤ 128 }
    ensures { result ≡ fits width v }
{
    if v.is_negative() {
        v.magnitude() <= 1 << (width - 1)
    } else {
        v.magnitude() <= low_ones(width)
    }
}

// The constant modulo 2^width.
fn modulo(v: Whole, width: u32) -> u128
    requires least { 1 ≤ width }
    requires most { width ≤ 128 }
    requires fits { fits width v ≡ true }
    ensures value { result ≡ modulo width v }
    ensures below { result < 2 ^ width }
{
    if v.is_negative() {
        low_ones(width) - (v.magnitude() - 1)
    } else {
        v.magnitude()
    }
}

// A refusal by a rule with no more to say.
pub(crate) fn refusal(rule: Rule, place: Place) -> Refusal
    ensures { result ≡ record { rule = rule; place = place; detail = Nothing } }
{
    Refusal {
        rule,
        place,
        detail: Detail::Nothing,
    }
}

// The number whose lowest `count` bits are ones.
fn low_ones(count: u32) -> u128
    requires least { 1 ≤ count }
    requires most { count ≤ 128 }
    ensures { result ≡ 2 ^ count - 1 }
{
    u128::MAX >> (128 - count)
}

// The refusal of two widths that differ.
pub(crate) fn widths_differ(left: u32, right: u32, place: Place) -> Refusal
    ensures { result ≡ record { rule = S9; place = place; detail = Pair left right } }
{
    Refusal {
        rule: Rule::S9,
        place,
        detail: Detail::Pair(u128::from(left), u128::from(right)),
    }
}
