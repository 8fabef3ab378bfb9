ghost use Rattle.std.specs.Prelude.{◌≡◌, ◌<◌, ◌⊎◌, ◌+◌, ◌^◌, [], ◌∷◌, length, IfOk};
ghost use Rattle.hc_token.specs.Control.{AreThere, Controls, IsNever};
ghost use Rattle.hc_token.specs.Circuits.{Follows};

use crate::ends::Ends;
use crate::gates::{and, or};
use hc_net::{Builder, NoMemory};
use std::alloc::Global;

/// Two parts, one behind the other. The second starts where the first passes or finishes. Where the second always takes a
/// clock, the whole finishes by the second's own net, and so reaches no more than that.
pub fn follow(_alloc: Global, b: &mut Builder, first: Ends, second: Ends) -> Result<Ends, NoMemory>
    requires first { AreThere b.old first }
    requires second { AreThere b.old second }
    requires room { length b.old.nodes + 3 < 2 ^ 32 }
    ensures circuit { IfOk result (λ ends. Controls 3 0 0 (first.pass ∷ second.pass ∷ []) (second.finish ∷ first.finish ∷ second.pass ∷ []) b.old b.new ends (Follows first second ends)) }
    ensures never { IfOk result (λ ends. IsNever b.old.nodes first.pass ⊎ IsNever b.old.nodes second.pass → IsNever b.new.nodes ends.pass) }
    ensures reach { IfOk result (λ ends. IsNever b.old.nodes second.pass → ends.finish ≡ second.finish) }
{
    let pass = and(b, first.pass, second.pass)?;
    let through = and(b, first.finish, second.pass)?;
    let finish = or(b, second.finish, through)?;
    Ok(Ends { pass, finish })
}
