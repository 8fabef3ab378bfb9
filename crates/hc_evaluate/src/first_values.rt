ghost use Rattle.std.specs.Prelude.{◌≡◌, ◌≤◌, ℕ, ◌*◌, List, ◌∷◌, length, All, IfOk, OnOk};
ghost use Rattle.hc_core.specs.Typed.{kinds_of};
ghost use Rattle.hc_core.specs.Sound.{HasType, IsWidth};
ghost use Rattle.hc_tree.specs.declared.expr.ExprTree as tree;
ghost use Rattle.hc_scope.specs.Nodes.{nodes};
ghost use Rattle.hc_scope.specs.Declaration as spec;
ghost use Rattle.hc_evaluate.specs.Elements.{elements_read};
ghost use Rattle.hc_scope.specs.Lists.{behind, Continues};
ghost use Rattle.hc_scope.specs.Reading.{context_of, Answers};
ghost use Rattle.hc_scope.specs.Sound.{AreSound};
ghost use Rattle.hc_scope.specs.Types.{type_read};
ghost use Rattle.hc_scope.specs.declared.state.State as the_state;

use crate::constants::{initial, length_of};
use hc_core::Nums;
use hc_num::Num;
use hc_scope::{FirstValues, Scope, State, ValueType, broken_name, wrong_number};
use hc_tree::{ExprTree, FrontErr, Ident, Mem, Rule};
use sqlite_items::Items;
use std::alloc::Global;

/// The length and the first values of an array, RAM or ROM: what they break one after another, then S7 at its name where there
/// are more values than elements.
#[tactic(auto, unfolding(hc_scope::specs::Declaration::elements))]
pub fn elements<'s, 't>(
    alloc: Global,
    state: &mut State,
    scope: &Scope<'s, 't>,
    calls: u32,
    room: u32,
    t: ValueType,
    m: &'t Mem,
) -> Result<FirstValues, FrontErr>
    requires sound { AreSound (kinds_of state.old.objects) }
    requires width { IsWidth t.width }
    ensures answers { Answers elements_read (spec.elements (nodes room) (context_of scope.now calls) (type_read t) m.now state.old) result state.new }
    ensures least { IfOk result (λ all. 1 ≤ all.count) }
    ensures few { IfOk result (λ all. length all.values ≤ all.count) }
    ensures typed { IfOk result (λ all. All (HasType t.width t.signed) all.values) }
    ensures objects { state.new.objects ≡ state.old.objects }
{
    match length_of(alloc, state, scope, calls, room, &m.length) {
        Ok(count) => match initial_list(alloc, state, scope, calls, room, t, &m.init) {
            Ok(values) => {
                if count < values.len() as u128 {
                    Err(wrong_number(values.len() as u128, count, m.name.place))
                } else {
                    Ok(FirstValues { count, values })
                }
            }
            Err(e) => Err(e),
        },
        Err(e) => Err(e),
    }
}

/// The length and the first values of a RAM or ROM: what `elements` refuses, then S24 at its name where it has more than 65,536
/// bits.
#[tactic(auto, unfolding(hc_scope::specs::Declaration::words))]
pub fn words<'s, 't>(
    alloc: Global,
    state: &mut State,
    scope: &Scope<'s, 't>,
    calls: u32,
    room: u32,
    t: ValueType,
    m: &'t Mem,
) -> Result<FirstValues, FrontErr>
    requires sound { AreSound (kinds_of state.old.objects) }
    requires width { IsWidth t.width }
    ensures answers { Answers elements_read (spec.words (nodes room) (context_of scope.now calls) (type_read t) m.now state.old) result state.new }
    ensures least { IfOk result (λ all. 1 ≤ all.count) }
    ensures most { IfOk result (λ all. all.count ≤ 65536) }
    ensures bits { IfOk result (λ all. all.count * t.width ≤ 65536) }
    ensures few { IfOk result (λ all. length all.values ≤ all.count) }
    ensures typed { IfOk result (λ all. All (HasType t.width t.signed) all.values) }
    ensures objects { state.new.objects ≡ state.old.objects }
{
    match elements(alloc, state, scope, calls, room, t, m) {
        Ok(all) => few_words(alloc, &m.name, t.width, all),
        Err(e) => Err(e),
    }
}

// These words, where they have few enough bits.
#[tactic(auto, using(crate::proofs::Bits::too_many_bits))]
fn few_words(
    alloc: Global,
    x: &Ident,
    width: u32,
    all: FirstValues,
) -> Result<FirstValues, FrontErr>
    requires least { 1 ≤ width }
    requires most { width ≤ 128 }
    ensures answers { (s : the_state.State) → Answers elements_read (spec.few_words x.now width (elements_read all) s) result s }
    ensures same { IfOk result (λ found. found ≡ all) }
    ensures bits { IfOk result (λ found. found.count * width ≤ 65536) }
    ensures most { IfOk result (λ found. found.count ≤ 65536) }
{
    if all.count > 65_536 {
        Err(broken_name(alloc, Rule::S24, x))
    } else if all.count * u128::from(width) > 65_536 {
        Err(broken_name(alloc, Rule::S24, x))
    } else {
        Ok(all)
    }
}

// The first values, if any are written.
fn initial_list<'s, 't>(
    alloc: Global,
    state: &mut State,
    scope: &Scope<'s, 't>,
    calls: u32,
    room: u32,
    t: ValueType,
    values: &'t Option<Items<ExprTree>>,
) -> Result<Nums, FrontErr>
    requires sound { AreSound (kinds_of state.old.objects) }
    requires width { IsWidth t.width }
    ensures answers { Answers (λ ns. ns) (spec.initial_list (nodes room) (context_of scope.now calls) (type_read t) values.now state.old) result state.new }
    ensures typed { IfOk result (λ ns. All (HasType t.width t.signed) ns) }
    ensures objects { state.new.objects ≡ state.old.objects }
{
    match values {
        Some(values) => initial_values(alloc, state, scope, calls, room, t, values.as_slice()),
        None => Ok(Items::new(alloc)),
    }
}

// The first values, one after another.
#[tactic(auto, using(crate::proofs::Lists::behind_none, crate::proofs::Lists::behind_all))]
fn initial_values<'s, 't>(
    alloc: Global,
    state: &mut State,
    scope: &Scope<'s, 't>,
    calls: u32,
    room: u32,
    t: ValueType,
    mut values: &'t [ExprTree],
) -> Result<Nums, FrontErr>
    requires sound { AreSound (kinds_of state.old.objects) }
    requires width { IsWidth t.width }
    ensures answers { Answers (λ ns. ns) (spec.initial_list (nodes room) (context_of scope.now calls) (type_read t) (Some values.entry.now) state.old) result state.new }
    ensures typed { IfOk result (λ ns. All (HasType t.width t.signed) ns) }
    ensures objects { state.new.objects ≡ state.old.objects }
{
    let mut numbers = Items::new(alloc);
    while let [value, rest @ ..] = values {
        match add_initial(alloc, state, scope, calls, room, t, &mut numbers, value) {
            Ok(()) => values = rest,
            Err(e) => return Err(e),
        }
    }
    Ok(numbers)
}

// One more first value behind those before.
#[tactic(auto, using(crate::proofs::Lists::behind_one, crate::proofs::Lists::behind_refused, hc_scope::proofs::Fitted::one_more_typed))]
fn add_initial<'s, 't>(
    alloc: Global,
    state: &mut State,
    scope: &Scope<'s, 't>,
    calls: u32,
    room: u32,
    t: ValueType,
    numbers: &mut Nums,
    value: &'t ExprTree,
) -> Result<(), FrontErr>
    requires sound { AreSound (kinds_of state.old.objects) }
    requires width { IsWidth t.width }
    requires typed { All (HasType t.width t.signed) numbers.old }
    ensures answers { let one = spec.initial (nodes room) (context_of scope.now calls) (type_read t) in
        (rest : List tree.ExprTree) → Continues (behind one numbers.old (value.now ∷ rest) state.old) (behind one numbers.new rest state.new) result }
    ensures typed { OnOk result (All (HasType t.width t.signed) numbers.new) }
    ensures objects { state.new.objects ≡ state.old.objects }
{
    match initial(alloc, state, scope, calls, room, t, value) {
        Ok(n) => match numbers.push(n) {
            Ok(()) => Ok(()),
            Err(_) => Err(FrontErr::NoMemory),
        },
        Err(e) => Err(e),
    }
}
