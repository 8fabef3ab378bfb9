ghost use Rattle.std.specs.Prelude.{◌<◌, ◌+◌, ◌^◌, [], length, IfOk};
ghost use Rattle.hc_token.specs.Control.{Controls, IsNever};
ghost use Rattle.hc_token.specs.Circuits.{Acts};

use crate::ends::Ends;
use hc_net::{Builder, FlopName, GateKind, NoMemory};
use std::alloc::Global;

/// The token of an action: it holds in the clock behind the start. `token` is the number of its flip-flop.
pub fn act(_alloc: Global, b: &mut Builder, token: u32, start: u32) -> Result<Ends, NoMemory>
    requires start { start < length b.old.nodes }
    requires room { length b.old.nodes + 2 < 2 ^ 32 }
    ensures circuit { IfOk result (λ ends. Controls 1 token 1 [] [] b.old b.new ends (Acts start ends)) }
    ensures never { IfOk result (λ ends. IsNever b.new.nodes ends.pass) }
{
    let pass = b.gate(GateKind::Zero, 0, 0)?;
    let finish = b.flop(FlopName::Token(token), false)?;
    b.feed(finish, start);
    Ok(Ends { pass, finish })
}
