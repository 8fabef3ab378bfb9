ghost use Rattle.std.specs.Prelude.{◌≡◌, ◌≢◌, ◌⊎◌, ◌<◌, ◌≤◌, true, false, List, ℕ, map, length};
ghost use Rattle.std.specs.String.{string_bytes};
ghost use Rattle.hc_outside.specs.Count.{HasRisen};
ghost use Rattle.hc_outside.specs.Store.{IsMissing, SameFiles};
ghost use Rattle.hc_core.specs.declared.object.Core.{Core};
ghost use Rattle.hc_tree.specs.declared.refusal.Refusal.{Refusal};
ghost use Rattle.hc_run.specs.Words.{Loads, HasNoJob};
ghost use Rattle.hc_run.specs.declared.status.Role.{Role};
ghost use Rattle.hc_run.specs.Answer.{
  source_limit,
  Accepted,
  First,
  IsDone,
  IsRefused,
  IsUsage,
  IsReadFault,
  IsOverLimit,
  IsWriteFault,
  IsNoMemory,
  IsCutOff,
  Prints,
  MovesCounts,
  HasFile,
  LineFails,
  LoadFails,
  RefusesAs,
  KeepsFiles,
};
ghost use Rattle.hc_run.specs.Steps.{Answers, Reports, status_of, text_of};

use crate::build_job::perform;
use crate::due::Due;
use crate::laws::{never_both, one_first_refusal};
use crate::status::{Role, Status};
use hc_outside::{Sink, Store, WriteErr, write_all};
use std::alloc::Global;

/// Does the job of the words after the program's name, and writes its line to `out`.
///
/// Each clause says of a status what it means and what the files are then; those with `where` say when it comes.
pub fn hcc<S: Store, K: Sink>(alloc: Global, words: &[String], store: &mut S, out: &mut K) -> Status
    requires closed { (S.state store.old).is_open ≡ false }
    requires ready { (K.state out.old).ready ≡ true }

    ensures headline { result ≡ Status.Done →
        Prints (IsDone (map string_bytes words.now) (S.state store.old) (S.state store.new)) (K.state out.old) (K.state out.new) }
    ensures refused { (refusal : Refusal) → result ≡ Status.Refused refusal →
        Prints (IsRefused (map string_bytes words.now) (S.state store.old) (S.state store.new) refusal) (K.state out.old) (K.state out.new) }
    ensures usage { result ≡ Status.Usage →
        Prints (IsUsage (map string_bytes words.now) (S.state store.old) (S.state store.new)) (K.state out.old) (K.state out.new) }
    ensures read_fault { (role : Role) → result ≡ Status.ReadFault role →
        Prints (IsReadFault (map string_bytes words.now) (S.state store.old) (S.state store.new) role) (K.state out.old) (K.state out.new) }
    ensures longer { (role : Role) → result ≡ Status.Longer role →
        Prints (IsOverLimit (map string_bytes words.now) (S.state store.old) (S.state store.new) role) (K.state out.old) (K.state out.new) }
    ensures write_fault { result ≡ Status.WriteFault →
        (IsWriteFault (map string_bytes words.now) (S.state store.old) (S.state store.new) × (K.state out.new ≡ K.state out.old))
        ⊎ (IsCutOff (map string_bytes words.now) (S.state store.old) (S.state store.new) (K.state out.old) (K.state out.new)
        × HasRisen (K.state out.old).faults (K.state out.new).faults) }
    ensures no_memory { result ≡ Status.NoMemory →
        (IsNoMemory (map string_bytes words.now) (S.state store.old) (S.state store.new) × (K.state out.new ≡ K.state out.old))
        ⊎ IsCutOff (map string_bytes words.now) (S.state store.old) (S.state store.new) (K.state out.old) (K.state out.new) }

    ensures usage_where { HasNoJob (map string_bytes words.now) →
        (result ≡ Status.Usage) ⊎ LineFails (K.state out.old) (K.state out.new) result }
    ensures missing_where { (file : List ℕ) → Loads (map string_bytes words.now) file →
        IsMissing (S.state store.old).disk file →
        (result ≡ Status.ReadFault Role.Source) ⊎ LineFails (K.state out.old) (K.state out.new) result }
    ensures longer_where { (file bytes : List ℕ) → Loads (map string_bytes words.now) file →
        HasFile (S.state store.old).disk file bytes → source_limit < length bytes →
        (result ≡ Status.Longer Role.Source)
        ⊎ LoadFails (S.state store.old) (S.state store.new) result
        ⊎ LineFails (K.state out.old) (K.state out.new) result }
    ensures refused_where { (file bytes : List ℕ) (refusal : Refusal) → Loads (map string_bytes words.now) file →
        HasFile (S.state store.old).disk file bytes → length bytes ≤ source_limit → First bytes refusal →
        RefusesAs refusal result
        ⊎ LoadFails (S.state store.old) (S.state store.new) result
        ⊎ LineFails (K.state out.old) (K.state out.new) result }
    ensures completeness { (file bytes : List ℕ) (core : Core) → Loads (map string_bytes words.now) file →
        HasFile (S.state store.old).disk file bytes → length bytes ≤ source_limit → Accepted bytes core →
        ¬ HasRisen (S.state store.old).reads (S.state store.new).reads →
        ¬ HasRisen (S.state store.old).writes (S.state store.new).writes →
        ¬ HasRisen (K.state out.old).faults (K.state out.new).faults →
        (result ≡ Status.Done) ⊎ (result ≡ Status.NoMemory) }

    ensures files_kept { KeepsFiles result → SameFiles (S.state store.old) (S.state store.new) }
    ensures files_due { result ≡ Status.WriteFault → ¬ HasRisen (S.state store.old).writes (S.state store.new).writes →
        IsCutOff (map string_bytes words.now) (S.state store.old) (S.state store.new) (K.state out.old) (K.state out.new) }
    ensures closed { result ≢ Status.WriteFault → result ≢ Status.NoMemory → (S.state store.new).is_open ≡ false }
    ensures counts { MovesCounts (S.state store.old) (S.state store.new) }
    ensures sure_writes { (S.state store.old).sure ≡ true → (K.state out.old).sure ≡ true → result ≢ Status.WriteFault }
    ensures sure_reads { (S.state store.old).sure ≡ true → (role : Role) → result ≡ Status.ReadFault role →
        (file : List ℕ) → Loads (map string_bytes words.now) file → IsMissing (S.state store.old).disk file }
{
    // The laws that `refused_where` and `completeness` stand on.
    one_first_refusal();
    never_both();
    answer(alloc, words, store, out)
}

/// Does the job and writes the line that is due.
fn answer<S: Store, K: Sink>(alloc: Global, words: &[String], store: &mut S, out: &mut K) -> Status
    requires closed { (S.state store.old).is_open ≡ false }
    requires ready { (K.state out.old).ready ≡ true }
    ensures answers { Answers (map string_bytes words.now) (S.state store.old) (S.state store.new) (K.state out.old) (K.state out.new) result }
    ensures counts { MovesCounts (S.state store.old) (S.state store.new) }
{
    match perform(alloc, words, store) {
        Ok(due) => report(alloc, due, out),
        Err(WriteErr::WriteFault) => Status::WriteFault,
        Err(WriteErr::NoMemory) => Status::NoMemory,
    }
}

/// Writes the line of a job's end, and gives its status, unless the line can't be written.
fn report<K: Sink>(alloc: Global, due: Due, out: &mut K) -> Status
    requires { (K.state out.old).ready ≡ true }
    ensures { Reports (status_of due) (text_of due) (K.state out.old) (K.state out.new) result }
{
    match due.line(alloc) {
        Ok(line) => match write_all(alloc, line.as_slice(), out) {
            Ok(()) => due.status(),
            Err(WriteErr::WriteFault) => Status::WriteFault,
            Err(WriteErr::NoMemory) => Status::NoMemory,
        },
        Err(_) => Status::NoMemory,
    }
}
