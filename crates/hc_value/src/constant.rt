ghost use Rattle.std.specs.Prelude.{◌≡◌, ◌<◌, IfOk, if◌then◌else◌};
ghost use Rattle.hc_core.specs.Read.{expression};
ghost use Rattle.hc_net.specs.Bits.{bit};
ghost use Rattle.hc_value.specs.Moves.{constant_nets};
ghost use Rattle.hc_value.specs.Moves.{amount as constant_amount};

use crate::operand::Operand;
use hc_core::Expr;
use hc_net::{Nets, NoMemory};
use hc_num::Num;
use std::alloc::Global;

/// A constant: the net `one` for each bit that is 1, and `zero` for each other one.
pub(crate) fn constant(alloc: Global, zero: u32, one: u32, n: &Num) -> Result<Operand, NoMemory>
    ensures nets { IfOk result (λ z. z.nets ≡ constant_nets zero one n.now) }
    ensures signed { IfOk result (λ z. z.signed ≡ n.now.signed) }
{
    let mut nets = Nets::new(alloc);
    for place in 0..n.width() {
        let net = bit_net(zero, one, n.bits(), place);
        nets.push(net)?;
    }
    Ok(Operand {
        nets,
        signed: n.signed(),
    })
}

/// `one` where this bit of a number is 1, else `zero`.
fn bit_net(zero: u32, one: u32, bits: u128, place: u32) -> u32
    requires { place < 128 }
    ensures { result ≡ (if bit bits place then one else zero) }
{
    if (bits >> place) % 2 == 1 { one } else { zero }
}

/// The number of a constant.
#[tactic(auto, using(hc_core::proofs::Read::reading))]
pub(crate) fn amount(e: &Expr) -> Option<u128>
    ensures { result ≡ constant_amount (expression e.now) }
{
    match e {
        Expr::Const(n) => Some(n.bits()),
        Expr::Reg(_) => None,
        Expr::Element(_, _) => None,
        Expr::Word(_, _) => None,
        Expr::Signal(_) => None,
        Expr::Input(_) => None,
        Expr::Unary(_, _) => None,
        Expr::Binary(_, _, _) => None,
        Expr::Slice(_, _, _) => None,
        Expr::Choice(_, _, _) => None,
    }
}
