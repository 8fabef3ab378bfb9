ghost use Rattle.std.specs.Prelude.{◌≡◌, ◌<◌, ◌≤◌, ℕ, Some, slice_get, ◌+◌, ◌*◌, ◌^◌, [], ◌∷◌, length, map, true, false, All, IfOk};
ghost use Rattle.hc_net.specs.Made.{Makes};
ghost use Rattle.hc_token.specs.Control.{AreThere, Controls, IsNever};
ghost use Rattle.hc_token.specs.Circuits.{Joins};

use crate::ends::Ends;
use crate::gates::all;
use crate::latches::{add_latches, feed_all};
use crate::waiting::wait;
use hc_net::{Builder, GateKind, Nets, NoMemory};
use std::alloc::Global;

/// Branches that start together and end together: each waits in a latch of its own until all are done. `token` is the number
/// of the first latch's flip-flop, and the others follow it.
pub fn join(
    alloc: Global,
    b: &mut Builder,
    token: u32,
    start: u32,
    branches: &[Ends],
) -> Result<Ends, NoMemory>
    requires numbers { token + length branches.now ≤ 2 ^ 32 }
    requires start { start < length b.old.nodes }
    requires branches { All (AreThere b.old) branches.now }
    requires room { length b.old.nodes + (7 * length branches.now + 2) < 2 ^ 32 }
    ensures circuit { IfOk result (λ ends. Controls (6 * length branches.now + 2) token (length branches.now) (map (λ e. e.pass) branches.now) (map (λ e. e.finish) branches.now) b.old b.new ends (Joins start branches.now ends)) }
    ensures never { IfOk result (λ ends. (i : ℕ) (e : _) → slice_get branches.now i ≡ Some e → IsNever b.old.nodes e.pass → IsNever b.new.nodes ends.pass) }
{
    if branches.is_empty() {
        return idle(b);
    }
    let passes = passes_of(alloc, branches)?;
    let finishes = finishes_of(alloc, branches)?;
    let pass = all(alloc, b, &passes)?;
    let latches = add_latches(alloc, b, token, branches.len())?;
    let waiting = wait(alloc, b, start, pass, &passes, &finishes, &latches)?;
    feed_all(b, &latches, &waiting.sources);
    Ok(Ends {
        pass,
        finish: waiting.finish,
    })
}

/// No branches: a token passes at once, and none ends later.
fn idle(b: &mut Builder) -> Result<Ends, NoMemory>
    requires room { length b.old.nodes + 2 < 2 ^ 32 }
    ensures { IfOk result (λ ends. Makes 2 [] b.old b.new (ends.pass ∷ ends.finish ∷ []) (λ v. (v ends.pass ≡ true) × (v ends.finish ≡ false))) }
{
    let pass = b.gate(GateKind::One, 0, 0)?;
    let finish = b.gate(GateKind::Zero, 0, 0)?;
    Ok(Ends { pass, finish })
}

/// The net of each branch that is 1 where a token passes.
fn passes_of(alloc: Global, branches: &[Ends]) -> Result<Nets, NoMemory>
    ensures { IfOk result (λ nets. nets ≡ map (λ e. e.pass) branches.now) }
{
    let mut nets = Nets::new(alloc);
    for branch in branches {
        nets.push(branch.pass)?;
    }
    Ok(nets)
}

/// The net of each branch that is 1 where a token ends.
fn finishes_of(alloc: Global, branches: &[Ends]) -> Result<Nets, NoMemory>
    ensures { IfOk result (λ nets. nets ≡ map (λ e. e.finish) branches.now) }
{
    let mut nets = Nets::new(alloc);
    for branch in branches {
        nets.push(branch.finish)?;
    }
    Ok(nets)
}
