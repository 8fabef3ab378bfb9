ghost use Rattle.std.specs.Prelude.{◌≡◌, ◌<◌, ◌+◌, ◌^◌, length, IfOk};
ghost use Rattle.hc_num.specs.Number.{Number};
ghost use Rattle.hc_core.specs.Program.{Constant};
ghost use Rattle.hc_core.specs.Read.{expression};
ghost use Rattle.hc_core.specs.Typed.{kinds_of, HasSomeType, width_of};
ghost use Rattle.hc_core.specs.Weigh.{AreSound};
ghost use Rattle.hc_core.specs.Weight.{expression_weight};
ghost use Rattle.hc_value.specs.Moves.{constant_nets};
ghost use Rattle.hc_value.specs.Objects.{HasConstants};
ghost use Rattle.hc_value.specs.Operands.{CanValue, IsValue};
ghost use Rattle.hc_value.specs.Reads.{HasNets, MakesValue};

use crate::binary::binary;
use crate::choice::choice;
use crate::constant::{amount, constant};
use crate::element::{fixed_element, read_element};
use crate::moved::{move_of, moved, slice};
use crate::objects::ObjectNets;
use crate::operand::Operand;
use crate::shape::whole;
use crate::unary::unary;
use hc_core::{Core, Expr, Object};
use hc_net::{Builder, Nets, NoMemory};
use std::alloc::Global;

/// The nets of an expression's number, lowest bit first, as many as its width. The circuit has at most as many gates as the
/// expression weighs; a constant and a shift, take, drop or cut by a constant add none. The nets of a constant are `zero` and
/// `one`.
pub fn value(
    alloc: Global,
    b: &mut Builder,
    core: &Core,
    at: &ObjectNets,
    e: &Expr,
) -> Result<Nets, NoMemory>
    requires sound { AreSound (kinds_of core.now.objects) }
    requires typed { HasSomeType (kinds_of core.now.objects) (expression e.now) }
    requires constants { HasConstants (length b.old.nodes) at.now }
    requires nets { HasNets (kinds_of core.now.objects) at.now (length b.old.nodes) (expression e.now) }
    requires room { length b.old.nodes + expression_weight (kinds_of core.now.objects) (expression e.now) < 2 ^ 32 }
    ensures width { IfOk result (λ z. length z ≡ width_of (kinds_of core.now.objects) (expression e.now)) }
    ensures circuit { IfOk result (MakesValue (kinds_of core.now.objects) at.now (expression e.now) b.old b.new) }
    ensures constant { IfOk result (λ z. (n : Number) → expression e.now ≡ Constant n → z ≡ constant_nets at.now.zero at.now.one n) }
{
    match e {
        Expr::Const(n) => {
            let z = constant(alloc, at.zero, at.one, n)?;
            Ok(z.nets)
        }
        _ => {
            let z = valued(alloc, b, core.objects.as_slice(), at, e)?;
            Ok(z.nets)
        }
    }
}

/// The same with its sign. Operands come before their operator; what a constant moves or picks gets no gates.
fn valued(
    alloc: Global,
    b: &mut Builder,
    objects: &[Object],
    at: &ObjectNets,
    e: &Expr,
) -> Result<Operand, NoMemory>
    requires { CanValue (kinds_of objects.now) at.now b.old (expression e.now) }
    ensures { IfOk result (IsValue (kinds_of objects.now) at.now (expression e.now) b.old b.new) }
{
    match e {
        Expr::Const(n) => constant(alloc, at.zero, at.one, n),
        Expr::Reg(k) => whole(alloc, objects, at, *k),
        Expr::Element(k, i) => match amount(i.get()) {
            Some(n) => fixed_element(alloc, objects, at, *k, n),
            None => {
                let index = valued(alloc, b, objects, at, i.get())?;
                read_element(alloc, b, objects, at, *k, &index.nets)
            }
        },
        Expr::Word(k, _) => whole(alloc, objects, at, *k),
        Expr::Signal(k) => whole(alloc, objects, at, *k),
        Expr::Input(k) => whole(alloc, objects, at, *k),
        Expr::Unary(op, x) => {
            let x = valued(alloc, b, objects, at, x.get())?;
            unary(alloc, b, *op, x)
        }
        Expr::Binary(op, x, y) => {
            let x = valued(alloc, b, objects, at, x.get())?;
            match move_of(*op, y.get()) {
                Some(by) => moved(alloc, at.zero, by, &x),
                None => {
                    let y = valued(alloc, b, objects, at, y.get())?;
                    binary(alloc, b, *op, &x, &y)
                }
            }
        }
        Expr::Slice(x, high, low) => {
            let x = valued(alloc, b, objects, at, x.get())?;
            slice(alloc, &x, *high, *low)
        }
        Expr::Choice(c, x, y) => {
            let c = valued(alloc, b, objects, at, c.get())?;
            let x = valued(alloc, b, objects, at, x.get())?;
            let y = valued(alloc, b, objects, at, y.get())?;
            choice(alloc, b, &c.nets, &x, &y.nets)
        }
    }
}
