ghost use Rattle.std.specs.Prelude.{◌≡◌};
ghost use Rattle.hc_num.specs.Compare.{truth};
ghost use Rattle.hc_core.specs.Typed.{group_of};
ghost use Rattle.hc_meaning.specs.Value.{holds, unary, binary};
ghost use Rattle.hc_sim.specs.Fitting.{Fitting};

use hc_core::{BinOp, UnOp};
use hc_num::Num;

/// An answer as a number of one bit.
fn truth(answer: bool) -> Num
    ensures { result ≡ truth answer }
{
    Num::new(1, false, u128::from(answer))
}

/// Whether a number isn't 0.
pub(crate) fn holds(n: Num) -> bool
    ensures { result ≡ holds n }
{
    n.bits() != 0
}

/// An operator before its operand, or a cast.
pub(crate) fn unary(op: UnOp, a: Num) -> Num
    ensures { result ≡ unary op a }
{
    match op {
        UnOp::Neg => a.neg(),
        UnOp::Not => a.not(),
        UnOp::IsZero => truth(!holds(a)),
        UnOp::ToSigned => Num::new(a.width(), true, a.bits()),
        UnOp::ToUnsigned => Num::new(a.width(), false, a.bits()),
    }
}

/// An operator between two operands.
pub(crate) fn binary(op: BinOp, a: Num, b: Num) -> Num
    requires { Fitting (group_of op) a b }
    ensures { result ≡ binary op a b }
{
    match op {
        BinOp::Add => a.add(b),
        BinOp::Sub => a.sub(b),
        BinOp::Mul => a.mul(b),
        BinOp::Div => a.div(b),
        BinOp::Rem => a.rem(b),
        BinOp::And => a.and(b),
        BinOp::Or => a.or(b),
        BinOp::Xor => a.xor(b),
        BinOp::Eq => a.eq(b),
        BinOp::Ne => truth(!holds(a.eq(b))),
        BinOp::Lt => a.lt(b),
        BinOp::Le => truth(!holds(b.lt(a))),
        BinOp::Gt => b.lt(a),
        BinOp::Ge => truth(!holds(a.lt(b))),
        BinOp::Shl => a.shl(b.bits()),
        BinOp::Shr => a.shr(b.bits()),
        BinOp::Concat => a.concat(b),
        BinOp::Take => a.take_low(b.bits() as u32),
        BinOp::Drop => a.drop_low(b.bits() as u32),
        BinOp::Both => truth(holds(a) && holds(b)),
        BinOp::Either => truth(holds(a) || holds(b)),
    }
}
