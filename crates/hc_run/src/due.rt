ghost use Rattle.std.specs.Prelude.{◌≡◌, IfOk};
ghost use Rattle.hc_run.specs.Steps.{status_of, text_of};
ghost use Rattle.hc_run.specs.Lines.{built_line, checked_line, read_fault_line, longer_line, usage_line, role_name};

use crate::refused::refusal_line;
use crate::status::{Role, Status};
use hc_tree::Refusal;
use itoa::Buffer;
use std::alloc::{AllocError, Global};

/// How a job ended, before its line is written.
#[derive(Drop)]
pub(crate) enum Due {
    /// A netlist with so many gates, flip-flops and RAMs was saved.
    Built {
        gates: usize,
        flops: usize,
        rams: usize,
    },
    /// A core was checked that has so many objects, this weight and so many flip-flops.
    Checked {
        objects: usize,
        weight: u64,
        flops: u64,
    },
    Refused(Refusal),
    Usage,
    ReadFault(Role),
    Longer(Role),
}

impl Due {
    /// The status of this end.
    pub(crate) fn status(self) -> Status
        ensures { result ≡ status_of self }
    {
        match self {
            Due::Built { .. } => Status::Done,
            Due::Checked { .. } => Status::Done,
            Due::Refused(refusal) => Status::Refused(refusal),
            Due::Usage => Status::Usage,
            Due::ReadFault(role) => Status::ReadFault(role),
            Due::Longer(role) => Status::Longer(role),
        }
    }

    /// The line that says it.
    pub(crate) fn line(&self, alloc: Global) -> Result<Vec<u8>, AllocError>
        ensures { IfOk result (λ line. line.items ≡ text_of self.now) }
    {
        match self {
            Due::Built { gates, flops, rams } => built(alloc, *gates, *flops, *rams),
            Due::Checked {
                objects,
                weight,
                flops,
            } => checked(alloc, *objects, *weight, *flops),
            Due::Refused(refusal) => refusal_line(alloc, refusal),
            Due::Usage => usage(alloc),
            Due::ReadFault(role) => read_fault(alloc, *role),
            Due::Longer(role) => longer(alloc, *role),
        }
    }
}

#[tactic(auto, unfolding(crate::specs::Lines::built_line))]
fn built(alloc: Global, gates: usize, flops: usize, rams: usize) -> Result<Vec<u8>, AllocError>
    ensures { IfOk result (λ line. line.items ≡ built_line gates flops rams) }
{
    let mut digits = Buffer::new();
    let mut line = Vec::from_slice(alloc, b"built: gates ")?;
    line.extend_from_slice(digits.format(gates).as_bytes())?;
    line.extend_from_slice(b", flip-flops ")?;
    line.extend_from_slice(digits.format(flops).as_bytes())?;
    line.extend_from_slice(b", rams ")?;
    line.extend_from_slice(digits.format(rams).as_bytes())?;
    line.extend_from_slice(b"\n")?;
    Ok(line)
}

#[tactic(auto, unfolding(crate::specs::Lines::checked_line))]
fn checked(alloc: Global, objects: usize, weight: u64, flops: u64) -> Result<Vec<u8>, AllocError>
    ensures { IfOk result (λ line. line.items ≡ checked_line objects weight flops) }
{
    let mut digits = Buffer::new();
    let mut line = Vec::from_slice(alloc, b"objects ")?;
    line.extend_from_slice(digits.format(objects).as_bytes())?;
    line.extend_from_slice(b", weight ")?;
    line.extend_from_slice(digits.format(weight).as_bytes())?;
    line.extend_from_slice(b", flip-flops ")?;
    line.extend_from_slice(digits.format(flops).as_bytes())?;
    line.extend_from_slice(b"\n")?;
    Ok(line)
}

#[tactic(auto, unfolding(crate::specs::Lines::usage_line))]
fn usage(alloc: Global) -> Result<Vec<u8>, AllocError>
    ensures { IfOk result (λ line. line.items ≡ usage_line) }
{
    Vec::from_slice(
        alloc,
        b"usage: hcc build FILE [--edif FILE] [--verilog FILE] | check FILE | sim FILE --stim FILE --trace FILE | nsim FILE --stim FILE --trace FILE | compare FILE --net FILE --stim FILE | gen N | cells\n",
    )
}

#[tactic(auto, unfolding(crate::specs::Lines::read_fault_line))]
fn read_fault(alloc: Global, role: Role) -> Result<Vec<u8>, AllocError>
    ensures { IfOk result (λ line. line.items ≡ read_fault_line role) }
{
    let mut line = Vec::from_slice(alloc, b"read fault: ")?;
    line.extend_from_slice(role_of(role))?;
    line.extend_from_slice(b"\n")?;
    Ok(line)
}

#[tactic(auto, unfolding(crate::specs::Lines::longer_line))]
fn longer(alloc: Global, role: Role) -> Result<Vec<u8>, AllocError>
    ensures { IfOk result (λ line. line.items ≡ longer_line role) }
{
    let mut line = Vec::from_slice(alloc, b"too long: ")?;
    line.extend_from_slice(role_of(role))?;
    line.extend_from_slice(b"\n")?;
    Ok(line)
}

#[tactic(auto, unfolding(crate::specs::Lines::role_name))]
fn role_of(role: Role) -> &'static [u8]
    ensures { result.now ≡ role_name role }
{
    match role {
        Role::Source => b"source",
    }
}
