//! What each operator adds to the weight, by the widths of its operands in bits.

ghost use Rattle.std.specs.Prelude.{◌≡◌, ◌<◌, ◌≤◌, ◌+◌, ◌*◌, ◌^◌, if◌then◌else◌};
ghost use Rattle.hc_core.specs.Weight.{unary_weight, binary_weight, element_weight, word_weight, to_element_weight, to_word_weight};

use crate::expr::{BinOp, UnOp};
use hc_num::aw;

/// An operator before an operand of `w` bits.
pub(crate) fn unary(op: UnOp, w: u64) -> u64
    requires { w ≤ 128 }
    ensures { result ≡ unary_weight op w }
{
    match op {
        UnOp::Neg => 8 * w,
        UnOp::Not => w,
        UnOp::IsZero => w + 2,
        UnOp::ToSigned => 0,
        UnOp::ToUnsigned => 0,
    }
}

/// A shift of `w` bits by `v` bits, or by a constant.
fn shift(fixed: bool, w: u64, v: u64) -> u64
    requires first { w ≤ 128 }
    requires second { v ≤ 128 }
    ensures { result ≡ (if fixed then 0 else 4 * (w * v) + 4 * w) }
{
    if fixed { 0 } else { 4 * (w * v) + 4 * w }
}

/// An operator between operands of `w` and `v` bits, of which the second may be a constant.
pub(crate) fn binary(op: BinOp, fixed: bool, w: u64, v: u64) -> u64
    requires first { w ≤ 128 }
    requires second { v ≤ 128 }
    ensures { result ≡ binary_weight op fixed w v }
{
    match op {
        BinOp::Add => 8 * w,
        BinOp::Sub => 8 * w,
        BinOp::Mul => 8 * (w * w),
        BinOp::Div => 16 * (w * w) + 24 * w,
        BinOp::Rem => 16 * (w * w) + 24 * w,
        BinOp::And => w,
        BinOp::Or => w,
        BinOp::Xor => w,
        BinOp::Eq => 4 * w,
        BinOp::Ne => 4 * w,
        BinOp::Lt => 8 * w + 4,
        BinOp::Le => 8 * w + 4,
        BinOp::Gt => 8 * w + 4,
        BinOp::Ge => 8 * w + 4,
        BinOp::Shl => shift(fixed, w, v),
        BinOp::Shr => shift(fixed, w, v),
        BinOp::Concat => 0,
        BinOp::Take => 0,
        BinOp::Drop => 0,
        BinOp::Both => w + v + 2,
        BinOp::Either => w + v + 2,
    }
}

/// Reading an element of `n` elements of `w` bits, by a constant or another index.
pub(crate) fn element(fixed: bool, n: u32, w: u64) -> u64
    requires { w ≤ 128 }
    ensures { result ≡ element_weight fixed n w }
{
    let a = aw(n) as u64;
    if fixed {
        0
    } else {
        n as u64 * (a + 2 * w) + 2 * a
    }
}

/// Reading a word of `n` words.
pub(crate) fn word(n: u32) -> u64
    ensures { result ≡ word_weight n }
{
    2 * aw(n) as u64 + 4
}

/// Writing an element of `n` elements of `w` bits, by a constant or another index.
pub(crate) fn to_element(fixed: bool, n: u32, w: u64) -> u64
    requires { w ≤ 128 }
    ensures weight { result ≡ to_element_weight fixed n w }
    ensures light { result < 2 ^ 42 }
{
    let a = aw(n) as u64;
    if fixed {
        2 * w
    } else {
        n as u64 * (a + 2 * w + 4) + a
    }
}

/// Writing a word of `n` words of `w` bits.
pub(crate) fn to_word(n: u32, w: u64) -> u64
    requires { w ≤ 128 }
    ensures weight { result ≡ to_word_weight n w }
    ensures light { result < 2 ^ 42 }
{
    2 * aw(n) as u64 + 2 * w + 4
}
