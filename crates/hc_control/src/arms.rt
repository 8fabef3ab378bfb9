ghost use Rattle.std.specs.Prelude.{◌≡◌, ◌<◌, ◌≤◌, ◌⊎◌, ◌+◌, ◌^◌, ◌∷◌, [], ◌||◌, ◌&&◌, length, All, IfOk, if◌then◌else◌};
ghost use Rattle.std.specs.List.{list_any};
ghost use Rattle.hc_core.specs.Program.{Switch};
ghost use Rattle.hc_core.specs.Read.{expression, statement as read, arms as read_arms};
ghost use Rattle.hc_core.specs.Typed.{kinds_of};
ghost use Rattle.hc_net.specs.Made.{Makes};
ghost use Rattle.hc_token.specs.Control.{AreThere, IsNever};
ghost use Rattle.hc_control.specs.Building.{CanBuild, Builds};
ghost use Rattle.hc_control.specs.Taking.{CanTake, Takes, CanTakeOne, TakesOne};

use crate::labels::labelled;
use crate::started::Started;
use crate::statement::statement;
use hc_core::{Arm, Core, Expr, Stmt};
use hc_net::{Builder, Nets, NoMemory};
use hc_token::{Ends, and, not, or};
use hc_value::{ObjectNets, value};
use std::alloc::Global;

/// The control of a `switch`: the selector starts the arm with its number among its labels, else the first with the label
/// `default`; where there is neither, what starts passes.
#[cycle(control)]
pub(crate) fn switch(
    alloc: Global,
    b: &mut Builder,
    core: &Core,
    at: &ObjectNets,
    start: u32,
    selector: &Expr,
    arms: &[Arm],
    started: &mut Started,
) -> Result<Ends, NoMemory>
    requires { (place : _) × CanBuild (kinds_of core.now.objects) at.now (Switch place (expression selector.now) (read_arms arms.now)) start started.old.next b.old }
    ensures { IfOk result (λ ends. (place : _) → Builds (kinds_of core.now.objects) at.now (Switch place (expression selector.now) (read_arms arms.now)) start b.old b.new started.old started.new ends) }
{
    let x = value(alloc, b, core, at, selector)?;
    let nets = labelled(alloc, b, at.zero, &x, arms)?;
    let some = any(b, at.zero, &nets)?;
    let otherwise = not(b, some)?;
    take(alloc, b, core, at, start, arms, &nets, otherwise, started)
}

/// The net that holds where one of these does. The net `zero` is 0.
fn any(b: &mut Builder, zero: u32, nets: &Nets) -> Result<u32, NoMemory>
    requires zero { zero < length b.old.nodes }
    requires nets { All (λ k. k < length b.old.nodes) nets.now }
    requires room { length b.old.nodes + length nets.now < 2 ^ 32 }
    ensures { IfOk result (λ z. Makes (length nets.now) (zero ∷ nets.now) b.old b.new (z ∷ []) (λ v. v z ≡ (v zero || list_any v nets.now))) }
{
    let mut some = zero;
    for i in 0..nets.len() {
        some = or(b, some, nets.as_slice()[i])?;
    }
    Ok(some)
}

/// The control of the arms. An arm is taken where its net of `nets` holds, and the first with the label `default` also where
/// `otherwise` does.
#[cycle(control)]
fn take(
    alloc: Global,
    b: &mut Builder,
    core: &Core,
    at: &ObjectNets,
    start: u32,
    arms: &[Arm],
    nets: &Nets,
    otherwise: u32,
    started: &mut Started,
) -> Result<Ends, NoMemory>
    requires take { CanTake (kinds_of core.now.objects) at.now (read_arms arms.now) start started.old.next nets.now otherwise b.old }
    requires count { length nets.now ≡ length arms.now }
    ensures { IfOk result (Takes (kinds_of core.now.objects) at.now (read_arms arms.now) start nets.now otherwise b.old b.new started.old started.new) }
{
    let mut whole = Ends {
        pass: at.zero,
        finish: at.zero,
    };
    let mut defaulted = false;
    for i in 0..arms.len() {
        let is_default = arms[i].other && !defaulted;
        let chosen = chosen_net(b, nets.as_slice()[i], otherwise, is_default)?;
        let ends = take_one(alloc, b, core, at, start, chosen, &arms[i].body, started)?;
        whole = either(b, whole, ends)?;
        defaulted = defaulted || arms[i].other;
    }
    if defaulted {
        return Ok(whole);
    }
    let pass = or(b, whole.pass, otherwise)?;
    Ok(Ends {
        pass,
        finish: whole.finish,
    })
}

/// The net that holds where an arm is taken.
fn chosen_net(b: &mut Builder, net: u32, otherwise: u32, is_default: bool) -> Result<u32, NoMemory>
    requires net { net < length b.old.nodes }
    requires other { otherwise < length b.old.nodes }
    requires room { length b.old.nodes + 1 < 2 ^ 32 }
    ensures { IfOk result (λ z. Makes 1 (net ∷ otherwise ∷ []) b.old b.new (z ∷ []) (λ v. v z ≡ (if is_default then v net || v otherwise else v net))) }
{
    if is_default {
        or(b, net, otherwise)
    } else {
        Ok(net)
    }
}

/// The control of one arm, which is taken where the net `chosen` holds. The pass holds where the arm is taken and passed.
#[cycle(control)]
fn take_one(
    alloc: Global,
    b: &mut Builder,
    core: &Core,
    at: &ObjectNets,
    start: u32,
    chosen: u32,
    body: &Stmt,
    started: &mut Started,
) -> Result<Ends, NoMemory>
    requires { CanTakeOne (kinds_of core.now.objects) at.now (read body.now) start chosen started.old.next b.old }
    ensures { IfOk result (TakesOne (kinds_of core.now.objects) at.now (read body.now) start chosen b.old b.new started.old started.new) }
{
    let start_arm = and(b, start, chosen)?;
    let ends = statement(alloc, b, core, at, start_arm, body, started)?;
    let pass = and(b, chosen, ends.pass)?;
    Ok(Ends {
        pass,
        finish: ends.finish,
    })
}

/// The ends of two arms of which one is taken. Where one of both nets is the constant 0 the other stands, and is reached alone.
fn either(b: &mut Builder, first: Ends, second: Ends) -> Result<Ends, NoMemory>
    requires first { AreThere b.old first }
    requires second { AreThere b.old second }
    requires room { length b.old.nodes + 2 < 2 ^ 32 }
    ensures circuit { IfOk result (λ ends. Makes 2 (first.pass ∷ second.pass ∷ first.finish ∷ second.finish ∷ []) b.old b.new (ends.pass ∷ ends.finish ∷ [])
        (λ v. (v ends.pass ≡ (v first.pass || v second.pass)) × (v ends.finish ≡ (v first.finish || v second.finish)))) }
    ensures never { IfOk result (λ ends. IsNever b.old.nodes first.pass → IsNever b.old.nodes second.pass → IsNever b.new.nodes ends.pass) }
    ensures first_pass { IfOk result (λ ends. IsNever b.old.nodes second.pass → ends.pass ≡ first.pass) }
    ensures second_pass { IfOk result (λ ends. IsNever b.old.nodes first.pass → (ends.pass ≡ second.pass) ⊎ IsNever b.new.nodes second.pass) }
    ensures first_finish { IfOk result (λ ends. IsNever b.old.nodes second.finish → ends.finish ≡ first.finish) }
    ensures second_finish { IfOk result (λ ends. IsNever b.old.nodes first.finish → (ends.finish ≡ second.finish) ⊎ IsNever b.new.nodes second.finish) }
{
    let pass = or(b, first.pass, second.pass)?;
    let finish = or(b, first.finish, second.finish)?;
    Ok(Ends { pass, finish })
}
