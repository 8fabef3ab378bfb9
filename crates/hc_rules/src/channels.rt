//! The channels of the cases of one `prialt`.

ghost use Rattle.std.specs.Prelude.{◌≡◌, ◌++◌, ◌∷◌, [], OnOk};
ghost use Rattle.hc_core.specs.Read.{cases};
ghost use Rattle.hc_core.specs.Rules as rules;

use crate::accesses::note;
use hc_core::Case;
use std::alloc::AllocError;

/// Adds the channels of the cases of one `prialt`, without what stands in arms, to those found before.
#[tactic(auto, using(hc_core::proofs::Read::reading, crate::proofs::Adding::adding))]
pub(crate) fn of_one(found: &mut Vec<u32>, list: &[Case]) -> Result<(), AllocError>
    ensures { OnOk result (found.new.items ≡ found.old.items ++ rules.channels (cases list.now)) }
{
    let mut rest = list;
    while let [first, behind @ ..] = rest {
        note(found, channel(first))?;
        rest = behind;
    }
    Ok(())
}

/// The channel of a case.
#[tactic(auto, using(hc_core::proofs::Read::reading))]
fn channel(case: &Case) -> u32
    ensures { rules.channels (cases (case.now ∷ [])) ≡ result ∷ [] }
{
    match case {
        Case::Send { chan, .. } => *chan,
        Case::Recv { chan, .. } => *chan,
    }
}
