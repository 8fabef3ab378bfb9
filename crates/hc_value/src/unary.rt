ghost use Rattle.std.specs.Prelude.{◌≡◌, ◌<◌, ◌≤◌, ◌+◌, ◌^◌, Bool, false, not, length, All, IfOk};
ghost use Rattle.hc_core.specs.Weight.{unary_weight};
ghost use Rattle.hc_meaning.specs.Value.{holds};
ghost use Rattle.hc_num.specs.Compare.{truth as one_bit};
ghost use Rattle.hc_net.specs.Made.{Makes};
ghost use Rattle.hc_bits.specs.Held.{held};
ghost use Rattle.hc_value.specs.Operands.{MakesUnary};

use crate::operand::Operand;
use hc_bits::{invert, negate, truth};
use hc_core::UnOp;
use hc_net::{Builder, Nets, NoMemory};
use std::alloc::Global;

/// An operator before its operand.
pub(crate) fn unary(
    alloc: Global,
    b: &mut Builder,
    op: UnOp,
    x: Operand,
) -> Result<Operand, NoMemory>
    requires nets { All (λ k. k < length b.old.nodes) x.nets }
    requires some { 1 ≤ length x.nets }
    requires room { length b.old.nodes + unary_weight op (length x.nets) < 2 ^ 32 }
    ensures { IfOk result (MakesUnary op x b.old b.new) }
{
    let Operand { nets, signed } = x;
    match op {
        UnOp::Neg => {
            let nets = negate(alloc, b, &nets)?;
            Ok(Operand { nets, signed })
        }
        UnOp::Not => {
            let nets = invert(alloc, b, &nets)?;
            Ok(Operand { nets, signed })
        }
        UnOp::IsZero => {
            let nets = is_zero(alloc, b, &nets)?;
            Ok(Operand {
                nets,
                signed: false,
            })
        }
        UnOp::ToSigned => Ok(Operand { nets, signed: true }),
        UnOp::ToUnsigned => Ok(Operand {
            nets,
            signed: false,
        }),
    }
}

/// One bit, 1 where `x` is 0.
fn is_zero(alloc: Global, b: &mut Builder, x: &Nets) -> Result<Nets, NoMemory>
    requires nets { All (λ k. k < length b.old.nodes) x.now }
    requires some { 1 ≤ length x.now }
    requires room { length b.old.nodes + (length x.now + 1) < 2 ^ 32 }
    ensures width { IfOk result (λ z. length z ≡ 1) }
    ensures circuit { IfOk result (λ z. Makes (length x.now + 1) x.now b.old b.new z (λ v. (s : Bool) → held false v z ≡ one_bit (not (holds (held s v x.now))))) }
{
    let some = truth(alloc, b, x)?;
    invert(alloc, b, &some)
}
