ghost use Rattle.std.specs.Prelude.{◌≡◌, ℕ, ℤ, int_div, int_rem, unsigned_abs, ◌*ℤ◌, pos, ◌^◌};
ghost use Rattle.std.specs.Int.{int_div_euclid};
ghost use Rattle.hc_width.specs.Judged.{Answers};
ghost use Rattle.hc_width.specs.Binary.{binary_whole, by_bits, divided, shifted};

use crate::making::{breaks, constant, decided};
use crate::value::Value;
use crate::whole::Whole;
use hc_core::BinOp;
use hc_tree::{FrontErr, Place, Rule};

// An operator between two constants.
#[tactic(auto, unfolding(crate::specs::Binary::binary_whole))]
pub(crate) fn constants(op: BinOp, a: Whole, b: Whole, place: Place) -> Result<Value, FrontErr>
    ensures { Answers (binary_whole op a b) place result }
{
    match op {
        BinOp::Add => constant(a.add(b), place),
        BinOp::Sub => constant(a.sub(b), place),
        BinOp::Mul => constant(a.mul(b), place),
        BinOp::Div => quotient(a, b, place),
        BinOp::Rem => remainder(a, b, place),
        BinOp::And => bits(a, b, a.magnitude() & b.magnitude(), place),
        BinOp::Or => bits(a, b, a.magnitude() | b.magnitude(), place),
        BinOp::Xor => bits(a, b, a.magnitude() ^ b.magnitude(), place),
        BinOp::Eq => Ok(decided(a.equal(b))),
        BinOp::Ne => Ok(decided(!a.equal(b))),
        BinOp::Lt => Ok(decided(a.less(b))),
        BinOp::Le => Ok(decided(!b.less(a))),
        BinOp::Gt => Ok(decided(b.less(a))),
        BinOp::Ge => Ok(decided(!a.less(b))),
        BinOp::Shl => shift_left(a, b, place),
        BinOp::Shr => shift_right(a, b, place),
        BinOp::Concat => breaks(Rule::S12, place),
        BinOp::Take => breaks(Rule::S12, place),
        BinOp::Drop => breaks(Rule::S12, place),
        BinOp::Both => Ok(decided(a.holds() && b.holds())),
        BinOp::Either => Ok(decided(a.holds() || b.holds())),
    }
}

// `a / b`, or S8 by 0.
fn quotient(a: Whole, b: Whole, place: Place) -> Result<Value, FrontErr>
    ensures { Answers (divided (int_div a b) b) place result }
{
    if b.magnitude() == 0 {
        breaks(Rule::S8, place)
    } else {
        constant(a.div(b), place)
    }
}

// `a % b`, or S8 by 0.
fn remainder(a: Whole, b: Whole, place: Place) -> Result<Value, FrontErr>
    ensures { Answers (divided (int_rem a b) b) place result }
{
    if b.magnitude() == 0 {
        breaks(Rule::S8, place)
    } else {
        constant(a.rem(b), place)
    }
}

// What an operator on the bits of both has found, or S8 where one is negative.
fn bits(a: Whole, b: Whole, found: u128, place: Place) -> Result<Value, FrontErr>
    ensures { (f : ℕ → ℕ → ℕ) → found ≡ f (unsigned_abs a) (unsigned_abs b) → Answers (by_bits f a b) place result }
{
    if a.is_negative() || b.is_negative() {
        breaks(Rule::S8, place)
    } else {
        Ok(Value::Constant(Whole::from_number(found)))
    }
}

// `a << b`, or S11 by a negative amount.
fn shift_left(a: Whole, b: Whole, place: Place) -> Result<Value, FrontErr>
    ensures { Answers (shifted (λ n. a *ℤ pos (2 ^ n)) b) place result }
{
    if b.is_negative() {
        breaks(Rule::S11, place)
    } else {
        constant(a.shl(b.magnitude()), place)
    }
}

// `a >> b`, or S11 by a negative amount.
fn shift_right(a: Whole, b: Whole, place: Place) -> Result<Value, FrontErr>
    ensures { Answers (shifted (λ n. int_div_euclid a (pos (2 ^ n))) b) place result }
{
    if b.is_negative() {
        breaks(Rule::S11, place)
    } else {
        constant(a.shr(b.magnitude()), place)
    }
}
