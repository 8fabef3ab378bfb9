ghost use Rattle.std.specs.Prelude.{◌<◌, ◌≤◌, ◌+◌, ◌^◌, length, IfOk};
ghost use Rattle.hc_token.specs.Control.{IsNever};
ghost use Rattle.hc_channel.specs.Offers.{MakesOffer};

use crate::end::Offer;
use hc_net::{Builder, FlopName, GateKind, NoMemory};
use hc_token::Ends;
use std::alloc::Global;

/// One end of a channel that starts where the net `start` is 1. `token` is the number of the flip-flop in which it waits, and
/// the next one that of its finish.
pub fn offer(_alloc: Global, b: &mut Builder, token: u32, start: u32) -> Result<Offer, NoMemory>
    requires numbers { token + 2 ≤ 2 ^ 32 }
    requires start { start < length b.old.nodes }
    requires room { length b.old.nodes + 7 < 2 ^ 32 }
    ensures circuit { IfOk result (λ o. MakesOffer token start b.old b.new o) }
    ensures never { IfOk result (λ o. IsNever b.new.nodes o.ends.pass) }
{
    let pass = b.gate(GateKind::Zero, 0, 0)?;
    let waits = b.flop(FlopName::Token(token), false)?;
    let active = b.gate(GateKind::Or, start, waits)?;
    let partner = b.wire(u32::MAX)?;
    let done = b.gate(GateKind::And, active, partner)?;
    // What is done stands, so what stands and isn't done is the difference of the two.
    let still = b.gate(GateKind::Xor, active, done)?;
    b.feed(waits, still);
    let finish = b.flop(FlopName::Token(token + 1), false)?;
    b.feed(finish, done);
    Ok(Offer {
        active,
        partner,
        done,
        ends: Ends { pass, finish },
    })
}
