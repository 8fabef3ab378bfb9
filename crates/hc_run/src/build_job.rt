ghost use Rattle.std.specs.Prelude.{◌≡◌, ◌≤◌, ◌⊎◌, false, true, List, ℕ, map, length, IfOk, OnOk, OnErr, IsErrOf};
ghost use Rattle.std.specs.String.{string_bytes};
ghost use Rattle.hc_outside.specs.Count.{HasRisen};
ghost use Rattle.hc_outside.specs.Store.{SameFiles, Appended, AppendedFront, MovesWrites};
ghost use Rattle.hc_core.specs.Depends.{Cyclic};
ghost use Rattle.hc_net.specs.Valid.{IsValid};
ghost use Rattle.hc_build.specs.Built.{IsBuildable};
ghost use Rattle.hc_build.specs.Implements.{IsNetlistOf};
ghost use Rattle.hc_run.specs.Edif.{edif};
ghost use Rattle.hc_run.specs.Words.{IsBuild};
ghost use Rattle.hc_run.specs.Answer.{source_limit, Saved, HoldsFront, MovesCounts};
ghost use Rattle.hc_run.specs.Steps.{Filled, FilledFront, Saves, BuildsCore, CompilesSource, Performs};

use crate::cells::{gate_count, ram_count};
use crate::check_job::check_file;
use crate::due::Due;
use crate::edif::write_edif;
use crate::source::{SOURCE_LIMIT, read_source};
use crate::status::Role;
use crate::words::{Job, read_words};
use hc_build::build;
use hc_core::Core;
use hc_cycle::{cycles_reach_themselves, order};
use hc_net::{Net, NoMemory, RawNet};
use hc_outside::{LoadErr, OpenFile, Store, StoreErr, WriteErr};
use hc_tree::FrontErr;
use std::alloc::Global;

/// Does the job of the words, and says how it ended.
///
/// The words come first, then the source is loaded and checked, and the netlist's file is made after that.
pub(crate) fn perform<S: Store>(
    alloc: Global,
    words: &[String],
    store: &mut S,
) -> Result<Due, WriteErr>
    requires { (S.state store.old).is_open ≡ false }
    ensures performs { Performs (map string_bytes words.now) (S.state store.old) (S.state store.new) result }
    ensures counts { MovesCounts (S.state store.old) (S.state store.new) }
{
    match read_words(words) {
        Some(Job::Build { file, edif }) => build_file(alloc, file, edif, store),
        Some(Job::Check { file }) => check_file(alloc, file, store),
        None => Ok(Due::Usage),
    }
}

/// Compiles a source file into an EDIF file.
fn build_file<S: Store>(
    alloc: Global,
    file: &str,
    name: &str,
    store: &mut S,
) -> Result<Due, WriteErr>
    requires { (S.state store.old).is_open ≡ false }
    ensures performs { (words : List (List ℕ)) → IsBuild words file.now name.now →
        Performs words (S.state store.old) (S.state store.new) result }
    ensures counts { MovesCounts (S.state store.old) (S.state store.new) }
{
    let mut text = Vec::new(alloc);
    match store.load(alloc, file, SOURCE_LIMIT, &mut text) {
        Ok(()) => compile(alloc, text.as_slice(), name, store),
        Err(LoadErr::Failed) => Ok(Due::ReadFault(Role::Source)),
        Err(LoadErr::Longer) => Ok(Due::Longer(Role::Source)),
        Err(LoadErr::NoMemory) => Err(WriteErr::NoMemory),
    }
}

/// Compiles the bytes of a source into an EDIF file.
fn compile<S: Store>(alloc: Global, text: &[u8], name: &str, store: &mut S) -> Result<Due, WriteErr>
    requires within { length text.now ≤ source_limit }
    requires closed { (S.state store.old).is_open ≡ false }
    ensures compiles { CompilesSource text.now name.now (S.state store.old) (S.state store.new) result }
    ensures counts { MovesWrites (S.state store.old) (S.state store.new) }
{
    match read_source(alloc, text) {
        Ok(core) => {
            let due = build_core(alloc, &core, name, store);
            drop(core);
            due
        }
        Err(FrontErr::Refused(refusal)) => Ok(Due::Refused(refusal)),
        Err(FrontErr::NoMemory) => Err(WriteErr::NoMemory),
    }
}

/// Builds the netlist of a core and saves it.
fn build_core<S: Store>(
    alloc: Global,
    core: &Core,
    name: &str,
    store: &mut S,
) -> Result<Due, WriteErr>
    requires buildable { IsBuildable core.now }
    requires acyclic { Cyclic core.now → ⊥ }
    requires closed { (S.state store.old).is_open ≡ false }
    ensures builds { BuildsCore core.now name.now (S.state store.old) (S.state store.new) result }
    ensures counts { MovesWrites (S.state store.old) (S.state store.new) }
{
    match net_of(alloc, core) {
        Ok(net) => {
            let due = save_net(alloc, net.raw(), name, store);
            drop(net);
            due
        }
        Err(_) => Err(WriteErr::NoMemory),
    }
}

/// The netlist of a core. No value within a clock reaches itself, so that no order is refused.
fn net_of(alloc: Global, core: &Core) -> Result<Net, NoMemory>
    requires buildable { IsBuildable core.now }
    requires acyclic { Cyclic core.now → ⊥ }
    ensures { IfOk result (IsNetlistOf core.now) }
{
    cycles_reach_themselves();
    match order(alloc, core) {
        Ok(ranks) => {
            let net = build(alloc, core, &ranks);
            drop(ranks);
            net
        }
        Err(FrontErr::NoMemory) => Err(NoMemory),
        Err(FrontErr::Refused(_refusal)) => unreachable!(),
    }
}

/// Saves a netlist, and says how many gates, flip-flops and RAMs it has.
fn save_net<S: Store>(
    alloc: Global,
    raw: &RawNet,
    name: &str,
    store: &mut S,
) -> Result<Due, WriteErr>
    requires valid { IsValid raw.now }
    requires closed { (S.state store.old).is_open ≡ false }
    ensures saves { Saves raw.now name.now (S.state store.old) (S.state store.new) result }
    ensures counts { MovesWrites (S.state store.old) (S.state store.new) }
{
    match save_edif(alloc, raw, name, store) {
        Ok(()) => Ok(Due::Built {
            gates: gate_count(raw.cells.as_slice()),
            flops: raw.flops.len(),
            rams: ram_count(raw.cells.as_slice()),
        }),
        Err(WriteErr::WriteFault) => Err(WriteErr::WriteFault),
        Err(WriteErr::NoMemory) => Err(WriteErr::NoMemory),
    }
}

/// Makes a file of that name with the EDIF text of a netlist.
///
/// After an error the file is as it was or holds a front part of the text, and nothing more is called.
fn save_edif<S: Store>(
    alloc: Global,
    raw: &RawNet,
    name: &str,
    store: &mut S,
) -> Result<(), WriteErr>
    requires valid { IsValid raw.now }
    requires closed { (S.state store.old).is_open ≡ false }
    ensures ok { OnOk result (Saved name.now (edif raw.now) (S.state store.old) (S.state store.new)) }
    ensures err { OnErr result
        (SameFiles (S.state store.old) (S.state store.new)
        ⊎ HoldsFront name.now (edif raw.now) (S.state store.old) (S.state store.new)) }
    ensures fault { IsErrOf result WriteErr.WriteFault → HasRisen (S.state store.old).writes (S.state store.new).writes }
    ensures counts { MovesWrites (S.state store.old) (S.state store.new) }
{
    match store.create(alloc, name) {
        Ok(()) => fill_and_close(alloc, raw, store),
        Err(StoreErr::Failed) => Err(WriteErr::WriteFault),
        Err(StoreErr::NoMemory) => Err(WriteErr::NoMemory),
    }
}

/// Appends the EDIF text of a netlist to the open file, and closes it.
fn fill_and_close<S: Store>(alloc: Global, raw: &RawNet, store: &mut S) -> Result<(), WriteErr>
    requires valid { IsValid raw.now }
    requires opened { (S.state store.old).is_open ≡ true }
    ensures ok { OnOk result (Filled (edif raw.now) (S.state store.old) (S.state store.new)) }
    ensures err { OnErr result (FilledFront (edif raw.now) (S.state store.old) (S.state store.new)) }
    ensures fault { IsErrOf result WriteErr.WriteFault → HasRisen (S.state store.old).writes (S.state store.new).writes }
    ensures counts { MovesWrites (S.state store.old) (S.state store.new) }
{
    match fill(alloc, raw, store) {
        Ok(()) => match store.close() {
            Ok(()) => Ok(()),
            Err(_) => Err(WriteErr::WriteFault),
        },
        Err(WriteErr::WriteFault) => Err(WriteErr::WriteFault),
        Err(WriteErr::NoMemory) => Err(WriteErr::NoMemory),
    }
}

/// Appends the EDIF text of a netlist to the open file.
fn fill<S: Store>(alloc: Global, raw: &RawNet, store: &mut S) -> Result<(), WriteErr>
    requires valid { IsValid raw.now }
    requires opened { (S.state store.old).is_open ≡ true }
    ensures ok { OnOk result (Appended (edif raw.now) (S.state store.old) (S.state store.new)) }
    ensures err { OnErr result (AppendedFront (edif raw.now) (S.state store.old) (S.state store.new)) }
    ensures fault { IsErrOf result WriteErr.WriteFault → HasRisen (S.state store.old).writes (S.state store.new).writes }
    ensures counts { MovesWrites (S.state store.old) (S.state store.new) }
{
    let mut file = OpenFile::over(store);
    write_edif(alloc, raw, &mut file)
}
