ghost use Rattle.std.specs.Prelude.{◌≡◌, ◌<◌, ◌≤◌, ◌+◌, ◌*◌, ◌^◌, ◌++◌, false, length, map, All, IfOk};
ghost use Rattle.hc_core.specs.Typed.{group_of, group_sign};
ghost use Rattle.hc_core.specs.Weight.{binary_weight};
ghost use Rattle.hc_num.specs.Shift.{shifted_right};
ghost use Rattle.hc_net.specs.Bits.{number};
ghost use Rattle.hc_net.specs.Made.{Makes};
ghost use Rattle.hc_bits.specs.Held.{held};
ghost use Rattle.hc_value.specs.Operands.{Fits, MakesBinary};

use crate::compare::{at_least, less, unequal};
use crate::lists::joined_nets;
use crate::logic::{both, either};
use crate::operand::Operand;
use hc_bits::{add, band, bor, bxor, equal, shift_left, shift_right_sign, shift_right_zero, sub};
use hc_core::BinOp;
use hc_muldiv::{quotient, remainder, times};
use hc_net::{Builder, Nets, NoMemory};
use std::alloc::Global;

/// An operator between two operands, which isn't a take or a drop.
pub(crate) fn binary(
    alloc: Global,
    b: &mut Builder,
    op: BinOp,
    x: &Operand,
    y: &Operand,
) -> Result<Operand, NoMemory>
    requires left { All (λ k. k < length b.old.nodes) x.now.nets }
    requires right { All (λ k. k < length b.old.nodes) y.now.nets }
    requires some_left { 1 ≤ length x.now.nets }
    requires some_right { 1 ≤ length y.now.nets }
    requires fits { Fits (group_of op) x.now y.now }
    requires room { length b.old.nodes + binary_weight op false (length x.now.nets) (length y.now.nets) < 2 ^ 32 }
    ensures signed { IfOk result (λ z. z.signed ≡ group_sign (group_of op) x.now.signed) }
    ensures circuit { IfOk result (λ z. MakesBinary op x.now y.now b.old b.new z.nets) }
{
    let nets = binary_nets(alloc, b, op, x, y)?;
    Ok(Operand {
        nets,
        signed: sign_after(op, x.signed),
    })
}

/// The nets of an operator between two operands.
fn binary_nets(
    alloc: Global,
    b: &mut Builder,
    op: BinOp,
    x: &Operand,
    y: &Operand,
) -> Result<Nets, NoMemory>
    requires left { All (λ k. k < length b.old.nodes) x.now.nets }
    requires right { All (λ k. k < length b.old.nodes) y.now.nets }
    requires some_left { 1 ≤ length x.now.nets }
    requires some_right { 1 ≤ length y.now.nets }
    requires fits { Fits (group_of op) x.now y.now }
    requires room { length b.old.nodes + binary_weight op false (length x.now.nets) (length y.now.nets) < 2 ^ 32 }
    ensures { IfOk result (MakesBinary op x.now y.now b.old b.new) }
{
    match op {
        BinOp::Add => add(alloc, b, &x.nets, &y.nets),
        BinOp::Sub => sub(alloc, b, &x.nets, &y.nets),
        BinOp::Mul => times(alloc, b, &x.nets, &y.nets),
        BinOp::Div => quotient(alloc, b, &x.nets, &y.nets),
        BinOp::Rem => remainder(alloc, b, &x.nets, &y.nets),
        BinOp::And => band(alloc, b, &x.nets, &y.nets),
        BinOp::Or => bor(alloc, b, &x.nets, &y.nets),
        BinOp::Xor => bxor(alloc, b, &x.nets, &y.nets),
        BinOp::Eq => equal(alloc, b, &x.nets, &y.nets),
        BinOp::Ne => unequal(alloc, b, &x.nets, &y.nets),
        BinOp::Lt => less(alloc, b, x.signed, &x.nets, &y.nets),
        BinOp::Le => at_least(alloc, b, x.signed, &y.nets, &x.nets),
        BinOp::Gt => less(alloc, b, x.signed, &y.nets, &x.nets),
        BinOp::Ge => at_least(alloc, b, x.signed, &x.nets, &y.nets),
        BinOp::Shl => shift_left(alloc, b, &x.nets, &y.nets),
        BinOp::Shr => shift_right(alloc, b, x, &y.nets),
        BinOp::Concat => joined_nets(alloc, y.nets.as_slice(), x.nets.as_slice()),
        BinOp::Take => unreachable!(),
        BinOp::Drop => unreachable!(),
        BinOp::Both => both(alloc, b, &x.nets, &y.nets),
        BinOp::Either => either(alloc, b, &x.nets, &y.nets),
    }
}

/// `x >> y`: zeros enter at the high end, or the top bit of a number with a sign.
fn shift_right(alloc: Global, b: &mut Builder, x: &Operand, y: &Nets) -> Result<Nets, NoMemory>
    requires left { All (λ k. k < length b.old.nodes) x.now.nets }
    requires right { All (λ k. k < length b.old.nodes) y.now }
    requires width { 1 ≤ length x.now.nets }
    requires room { length b.old.nodes + (4 * length x.now.nets * length y.now + 4 * length x.now.nets) < 2 ^ 32 }
    ensures width { IfOk result (λ z. length z ≡ length x.now.nets) }
    ensures circuit { IfOk result (λ z. Makes (4 * length x.now.nets * length y.now + 4 * length x.now.nets) (x.now.nets ++ y.now) b.old b.new z (λ v. held x.now.signed v z ≡ shifted_right (held x.now.signed v x.now.nets) (number (map v y.now)))) }
{
    if x.signed {
        shift_right_sign(alloc, b, &x.nets, y)
    } else {
        shift_right_zero(alloc, b, &x.nets, y)
    }
}

/// Whether what an operator gives has a sign, where its first operand has one or not.
fn sign_after(op: BinOp, signed: bool) -> bool
    ensures { result ≡ group_sign (group_of op) signed }
{
    match op {
        BinOp::Add => signed,
        BinOp::Sub => signed,
        BinOp::Mul => signed,
        BinOp::Div => signed,
        BinOp::Rem => signed,
        BinOp::And => signed,
        BinOp::Or => signed,
        BinOp::Xor => signed,
        BinOp::Eq => false,
        BinOp::Ne => false,
        BinOp::Lt => false,
        BinOp::Le => false,
        BinOp::Gt => false,
        BinOp::Ge => false,
        BinOp::Shl => signed,
        BinOp::Shr => signed,
        BinOp::Concat => signed,
        BinOp::Take => signed,
        BinOp::Drop => signed,
        BinOp::Both => false,
        BinOp::Either => false,
    }
}
