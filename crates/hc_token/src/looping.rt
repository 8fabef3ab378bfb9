ghost use Rattle.std.specs.Prelude.{◌<◌, ◌+◌, ◌^◌, [], ◌∷◌, length, IfOk};
ghost use Rattle.hc_token.specs.Control.{AreThere, Controls, IsNever, IsAlways};
ghost use Rattle.hc_token.specs.Circuits.{Repeats};

use crate::ends::Ends;
use crate::gates::{and, not};
use hc_net::{Builder, NoMemory};
use std::alloc::Global;

/// A body that is done again as long as the net `c` is 1.
pub fn again(_alloc: Global, b: &mut Builder, c: u32, body: Ends) -> Result<Ends, NoMemory>
    requires condition { c < length b.old.nodes }
    requires body { AreThere b.old body }
    requires room { length b.old.nodes + 2 < 2 ^ 32 }
    ensures circuit { IfOk result (λ ends. Controls 2 0 0 (c ∷ []) (body.finish ∷ c ∷ []) b.old b.new ends (Repeats c body ends)) }
    ensures never { IfOk result (λ ends. IsAlways b.old.nodes c → IsNever b.new.nodes ends.pass × IsNever b.new.nodes ends.finish) }
{
    let pass = not(b, c)?;
    let finish = and(b, body.finish, pass)?;
    Ok(Ends { pass, finish })
}
