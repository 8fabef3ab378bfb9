ghost use Rattle.std.specs.Prelude.{◌≡◌, ◌≤◌, ◌<◌, IfOk, IfErr};
ghost use Rattle.hc_core.specs.Sound.{IsSound};
ghost use Rattle.hc_core.specs.Weight.{weight_of};
ghost use Rattle.hc_rules.specs.Weight.{most_weight, too_heavy};

use hc_core::{Core, weight};
use hc_tree::{Detail, Place, Refusal, Rule};

/// The most that a core may weigh.
const MOST_WEIGHT: u64 = 2_000_000;

/// L8 at 1:1 where the weight of the core is over 2,000,000 (this project's own). It takes no memory.
pub fn check_weight(core: &Core) -> Result<(), Refusal>
    requires { IsSound core.now }
    ensures light { IfOk result (λ _. weight_of core.now ≤ most_weight) }
    ensures heavy { IfErr result (λ r. (most_weight < weight_of core.now) × (r ≡ too_heavy)) }
{
    if MOST_WEIGHT < weight(core) {
        Err(Refusal {
            rule: Rule::L8,
            place: Place { line: 1, column: 1 },
            detail: Detail::Nothing,
        })
    } else {
        Ok(())
    }
}
