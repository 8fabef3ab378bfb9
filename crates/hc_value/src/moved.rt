ghost use Rattle.std.specs.Prelude.{◌≡◌, ◌<◌, ◌≤◌, ◌+◌, ◌-◌, ◌++◌, false, length, take, drop, replicate, min, IfOk};
ghost use Rattle.hc_core.specs.Read.{expression};
ghost use Rattle.hc_value.specs.Moves.{moved_nets, entering_net};
ghost use Rattle.hc_value.specs.Moves.{move_of as the_move, move_by as the_move_by};

use crate::constant::amount;
use crate::lists::{joined_nets, repeated};
use crate::operand::Operand;
use hc_core::{BinOp, Expr};
use hc_net::{Nets, NoMemory};
use std::alloc::Global;

/// What an operator with a constant does to the nets of a number, for which no gate is needed.
#[derive(Clone, Copy)]
pub(crate) enum Move {
    /// `a << n`
    Up(u128),
    /// `a >> n`
    Down(u128),
    /// `a <- n`, the lowest n bits.
    Low(u128),
    /// `a \\ n`, all but the lowest n bits.
    High(u128),
}

/// The move that an operator makes with its second operand, if it makes one.
pub(crate) fn move_of(op: BinOp, e: &Expr) -> Option<Move>
    ensures { result ≡ the_move op (expression e.now) }
{
    match amount(e) {
        Some(n) => move_by(op, n),
        None => None,
    }
}

/// The move that an operator makes by a number of places or bits, if it makes one.
fn move_by(op: BinOp, n: u128) -> Option<Move>
    ensures { result ≡ the_move_by op n }
{
    match op {
        BinOp::Add => None,
        BinOp::Sub => None,
        BinOp::Mul => None,
        BinOp::Div => None,
        BinOp::Rem => None,
        BinOp::And => None,
        BinOp::Or => None,
        BinOp::Xor => None,
        BinOp::Eq => None,
        BinOp::Ne => None,
        BinOp::Lt => None,
        BinOp::Le => None,
        BinOp::Gt => None,
        BinOp::Ge => None,
        BinOp::Shl => Some(Move::Up(n)),
        BinOp::Shr => Some(Move::Down(n)),
        BinOp::Concat => None,
        BinOp::Take => Some(Move::Low(n)),
        BinOp::Drop => Some(Move::High(n)),
        BinOp::Both => None,
        BinOp::Either => None,
    }
}

/// A number after a move, where the net `zero` is 0.
pub(crate) fn moved(alloc: Global, zero: u32, by: Move, x: &Operand) -> Result<Operand, NoMemory>
    requires some { 1 ≤ length x.now.nets }
    ensures nets { IfOk result (λ z. z.nets ≡ moved_nets zero by x.now) }
    ensures signed { IfOk result (λ z. z.signed ≡ x.now.signed) }
{
    let nets = moved_to(alloc, zero, by, x)?;
    Ok(Operand {
        nets,
        signed: x.signed,
    })
}

/// The nets of a number after a move.
fn moved_to(alloc: Global, zero: u32, by: Move, x: &Operand) -> Result<Nets, NoMemory>
    requires some { 1 ≤ length x.now.nets }
    ensures { IfOk result (λ z. z ≡ moved_nets zero by x.now) }
{
    let nets = x.nets.as_slice();
    match by {
        Move::Up(n) => up(alloc, zero, nets, n),
        Move::Down(n) => down(alloc, entering(zero, x), nets, n),
        Move::Low(n) => Nets::from_slice(alloc, &nets[..at_most(n, nets.len())]),
        Move::High(n) => Nets::from_slice(alloc, &nets[at_most(n, nets.len())..]),
    }
}

/// The lesser of a number and a length.
fn at_most(n: u128, len: usize) -> usize
    ensures { result ≡ min n len }
{
    if n < len as u128 { n as usize } else { len }
}

/// The nets `n` places further up, with `zero` in the places below, as many as before.
fn up(alloc: Global, zero: u32, x: &[u32], n: u128) -> Result<Nets, NoMemory>
    ensures { IfOk result (λ z. z ≡ replicate (min n (length x.now)) zero ++ take (length x.now - min n (length x.now)) x.now) }
{
    let places = at_most(n, x.len());
    let low = repeated(alloc, zero, places)?;
    joined_nets(alloc, low.as_slice(), &x[..x.len() - places])
}

/// The nets `n` places further down, with `fill` in the places above, as many as before.
fn down(alloc: Global, fill: u32, x: &[u32], n: u128) -> Result<Nets, NoMemory>
    ensures { IfOk result (λ z. z ≡ drop (min n (length x.now)) x.now ++ replicate (min n (length x.now)) fill) }
{
    let places = at_most(n, x.len());
    let high = repeated(alloc, fill, places)?;
    joined_nets(alloc, &x[places..], high.as_slice())
}

/// What enters at the high end: the top net of a number with a sign, else `zero`.
fn entering(zero: u32, x: &Operand) -> u32
    requires { 1 ≤ length x.now.nets }
    ensures { result ≡ entering_net zero x.now }
{
    let nets = x.nets.as_slice();
    if x.signed { nets[nets.len() - 1] } else { zero }
}

/// The bits from a high one to a low one, both counted from 0 at the lowest, without a sign.
pub(crate) fn slice(alloc: Global, x: &Operand, high: u32, low: u32) -> Result<Operand, NoMemory>
    requires order { low ≤ high }
    requires within { high < length x.now.nets }
    ensures nets { IfOk result (λ z. z.nets ≡ take (high - low + 1) (drop low x.now.nets)) }
    ensures signed { IfOk result (λ z. z.signed ≡ false) }
{
    let above = &x.nets.as_slice()[low as usize..];
    let count = (high - low) as usize + 1;
    let nets = Nets::from_slice(alloc, &above[..count])?;
    Ok(Operand {
        nets,
        signed: false,
    })
}
