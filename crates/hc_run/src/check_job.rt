ghost use Rattle.std.specs.Prelude.{◌≡◌, ◌≤◌, false, List, ℕ, length};
ghost use Rattle.hc_core.specs.Sound.{IsSound};
ghost use Rattle.hc_core.specs.Weight.{weight_of, flops_of};
ghost use Rattle.hc_run.specs.Words.{IsCheck};
ghost use Rattle.hc_run.specs.Answer.{source_limit, MovesCounts};
ghost use Rattle.hc_run.specs.Steps.{ChecksSource, Performs};

use crate::due::Due;
use crate::source::{SOURCE_LIMIT, read_source};
use crate::status::Role;
use hc_core::{Core, flops, weight};
use hc_outside::{LoadErr, Store, WriteErr};
use hc_tree::FrontErr;
use std::alloc::Global;

/// Checks a source file alone. No file is touched.
pub(crate) fn check_file<S: Store>(
    alloc: Global,
    file: &str,
    store: &mut S,
) -> Result<Due, WriteErr>
    requires { (S.state store.old).is_open ≡ false }
    ensures performs { (words : List (List ℕ)) → IsCheck words file.now →
        Performs words (S.state store.old) (S.state store.new) result }
    ensures counts { MovesCounts (S.state store.old) (S.state store.new) }
{
    let mut text = Vec::new(alloc);
    match store.load(alloc, file, SOURCE_LIMIT, &mut text) {
        Ok(()) => check(alloc, text.as_slice()),
        Err(LoadErr::Failed) => Ok(Due::ReadFault(Role::Source)),
        Err(LoadErr::Longer) => Ok(Due::Longer(Role::Source)),
        Err(LoadErr::NoMemory) => Err(WriteErr::NoMemory),
    }
}

/// Checks the bytes of a source.
fn check(alloc: Global, text: &[u8]) -> Result<Due, WriteErr>
    requires { length text.now ≤ source_limit }
    ensures { ChecksSource text.now result }
{
    match read_source(alloc, text) {
        Ok(core) => {
            let due = counted(&core);
            drop(core);
            Ok(due)
        }
        Err(FrontErr::Refused(refusal)) => Ok(Due::Refused(refusal)),
        Err(FrontErr::NoMemory) => Err(WriteErr::NoMemory),
    }
}

/// What is said of a core: how many objects it has, its weight, and its flip-flops.
fn counted(core: &Core) -> Due
    requires { IsSound core.now }
    ensures { result ≡ Due.Checked (length core.now.objects) (weight_of core.now) (flops_of core.now) }
{
    Due::Checked {
        objects: core.objects.len(),
        weight: weight(core),
        flops: flops(core),
    }
}
