//! The weight of what statements hold beside other statements: targets, channels and conditions.

ghost use Rattle.std.specs.Prelude.{◌≡◌, ◌<◌, ◌^◌};
ghost use Rattle.hc_core.specs.Read.{expression, target};
ghost use Rattle.hc_core.specs.Typed.{kinds_of};
ghost use Rattle.hc_core.specs.Weight.{condition_weight, target_weight, channel_weight};
ghost use Rattle.hc_core.specs.Weigh.{CanWeigh, CanWeighTarget};

use crate::expr::Expr;
use crate::measure::exprs::{is_constant, weighed};
use crate::measure::lookup::{length_at, width_at};
use crate::measure::operators::{to_element, to_word};
use crate::object::Object;
use crate::stmt::Target;

/// A send, a receive or a case on a channel, without its value or target.
pub(crate) fn channel(objects: &[Object], chan: u32) -> u64
    ensures weight { result ≡ channel_weight (kinds_of objects.now) chan }
    ensures light { result < 2 ^ 33 }
{
    2 * width_at(objects, chan) as u64
}

/// A condition: its width, and the expression.
pub(crate) fn condition(objects: &[Object], e: &Expr) -> u64
    requires { CanWeigh (kinds_of objects.now) (expression e.now) }
    ensures weight { result ≡ condition_weight (kinds_of objects.now) (expression e.now) }
    ensures light { result < 2 ^ 58 }
{
    let e = weighed(objects, e);
    e.width as u64 + e.weight
}

/// A target, with its index.
#[tactic(auto, using(crate::proofs::Read::reading))]
pub(crate) fn target(objects: &[Object], t: &Target) -> u64
    requires { CanWeighTarget (kinds_of objects.now) (target t.now) }
    ensures weight { result ≡ target_weight (kinds_of objects.now) (target t.now) }
    ensures light { result < 2 ^ 58 }
{
    match t {
        Target::Reg(k) => 2 * width_at(objects, *k) as u64,
        Target::Signal(k) => 2 * width_at(objects, *k) as u64,
        Target::Element(k, i) => {
            let width = width_at(objects, *k) as u64;
            let own = to_element(is_constant(i), length_at(objects, *k), width);
            own + weighed(objects, i).weight
        }
        Target::Word(k, i) => {
            let own = to_word(length_at(objects, *k), width_at(objects, *k) as u64);
            own + weighed(objects, i).weight
        }
    }
}
