ghost use Rattle.std.specs.Prelude.{◌<◌, ◌≤◌, ◌+◌, ◌*◌, ◌^◌, length, All, IfOk};
ghost use Rattle.hc_prialt.specs.Cases.{AddsCase, AddsCases};

use hc_net::{Builder, FlopName, GateKind, Nets, NoMemory};
use std::alloc::Global;

/// The nets of one case of a `prialt`.
#[derive(Clone, Copy, Debug)]
pub(crate) struct Case {
    /// 1 in the clock in which the case is taken.
    pub(crate) taken: u32,
    /// 1 where the `prialt` stands and neither this case nor one before it is ready.
    pub(crate) free: u32,
    /// 1 in the clock in which the arm starts.
    pub(crate) arm_start: u32,
}

/// The nets of the cases of a `prialt`, in their order.
#[derive(Debug, Drop)]
pub(crate) struct Cases {
    pub(crate) taken: Nets,
    pub(crate) arm_starts: Nets,
    /// 1 where the `prialt` stands and no case is ready.
    pub(crate) free: u32,
}

/// The cases of a `prialt` that stands where the net `active` is 1. `first` is the number of the first arm's flip-flop, which
/// is no `u32` where there may be none.
pub(crate) fn add_cases(
    alloc: Global,
    b: &mut Builder,
    first: usize,
    active: u32,
    ready: &Nets,
) -> Result<Cases, NoMemory>
    requires numbers { first + length ready.now ≤ 2 ^ 32 }
    requires active { active < length b.old.nodes }
    requires ready { All (λ k. k < length b.old.nodes) ready.now }
    requires room { length b.old.nodes + 3 * length ready.now < 2 ^ 32 }
    ensures { IfOk result (λ c. AddsCases first active ready.now (length ready.now) b.old b.new c.taken c.arm_starts c.free) }
{
    let mut taken = Nets::new(alloc);
    let mut arm_starts = Nets::new(alloc);
    let mut free = active;
    for i in 0..ready.len() {
        let case = add_case(b, (first + i) as u32, free, ready.as_slice()[i])?;
        taken.push(case.taken)?;
        arm_starts.push(case.arm_start)?;
        free = case.free;
    }
    Ok(Cases {
        taken,
        arm_starts,
        free,
    })
}

/// One case, which is taken where the net `free` is 1 and the case is ready. `token` is the number of its arm's flip-flop.
fn add_case(b: &mut Builder, token: u32, free: u32, ready: u32) -> Result<Case, NoMemory>
    requires free { free < length b.old.nodes }
    requires ready { ready < length b.old.nodes }
    requires room { length b.old.nodes + 3 < 2 ^ 32 }
    ensures { IfOk result (λ c. AddsCase token free ready b.old b.new c) }
{
    let taken = b.gate(GateKind::And, free, ready)?;
    // What is taken was free, so what is free still is the difference of the two.
    let rest = b.gate(GateKind::Xor, free, taken)?;
    let arm = b.flop(FlopName::Token(token), false)?;
    b.feed(arm, taken);
    Ok(Case {
        taken,
        free: rest,
        arm_start: arm,
    })
}
