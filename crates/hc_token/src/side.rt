ghost use Rattle.std.specs.Prelude.{◌<◌, ◌+◌, ◌^◌, [], ◌∷◌, length, IfOk};
ghost use Rattle.hc_token.specs.Control.{AreThere, Controls, IsNever};
ghost use Rattle.hc_token.specs.Circuits.{Branches};

use crate::ends::Ends;
use crate::gates::{and, not, or};
use hc_net::{Builder, NoMemory};
use std::alloc::Global;

/// One of two sides: `yes` where the net `c` is 1 in the clock of the start, else `no`.
pub fn branch(
    _alloc: Global,
    b: &mut Builder,
    c: u32,
    yes: Ends,
    no: Ends,
) -> Result<Ends, NoMemory>
    requires condition { c < length b.old.nodes }
    requires yes { AreThere b.old yes }
    requires no { AreThere b.old no }
    requires room { length b.old.nodes + 5 < 2 ^ 32 }
    ensures circuit { IfOk result (λ ends. Controls 5 0 0 (c ∷ yes.pass ∷ no.pass ∷ []) (yes.finish ∷ no.finish ∷ []) b.old b.new ends (Branches c yes no ends)) }
    ensures never { IfOk result (λ ends. IsNever b.old.nodes yes.pass → IsNever b.old.nodes no.pass → IsNever b.new.nodes ends.pass) }
{
    let by_yes = and(b, c, yes.pass)?;
    let otherwise = not(b, c)?;
    let by_no = and(b, otherwise, no.pass)?;
    let pass = or(b, by_yes, by_no)?;
    let finish = or(b, yes.finish, no.finish)?;
    Ok(Ends { pass, finish })
}
