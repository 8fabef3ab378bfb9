ghost use Rattle.std.specs.Prelude.{◌≡◌, ◌≤◌, ℕ, All, length, ◌++◌, [], ◌∷◌, false, OnOk};
ghost use Rattle.hc_core.specs.declared.object.Kind.TheVariants as kind;
ghost use Rattle.hc_core.specs.Sound.{HasType, IsKind, IsWidth, is_port};
ghost use Rattle.hc_core.specs.Typed.{kinds_of};
ghost use Rattle.hc_scope.specs.Declaration.{object};
ghost use Rattle.hc_scope.specs.Expansion as spec;
ghost use Rattle.hc_scope.specs.Reading.{Answers};
ghost use Rattle.hc_scope.specs.Scope as s;
ghost use Rattle.hc_scope.specs.Sound.{AreSound, Grows, HasFewElements};
ghost use Rattle.hc_scope.specs.Table.{context_in, AnswersNames};
ghost use Rattle.hc_scope.specs.Reading.{scope_in};
ghost use Rattle.hc_scope.specs.declared.scope.Scope.{Scope};

use crate::names::{Names, declare};
use crate::refusal::broken;
use crate::scope::Declared;
use crate::state::State;
use crate::value_type::ValueType;
use hc_core::{Kind, Nums, Object};
use hc_tree::{FrontErr, Ident, Name, NoMemory, Rule};
use std::alloc::Global;

// The greatest number of objects, and of elements of an array.
const MOST_OBJECTS: usize = 65_535;

const MOST_ELEMENTS: u128 = 4096;

/// The length of an array, RAM or ROM, and the first values of its elements or words.
#[derive(Drop)]
pub struct FirstValues {
    /// The number of elements or words.
    pub count: u128,
    /// The first values, from the first element or word on; there may be fewer of them.
    pub values: Nums,
}

/// Makes an object, whose number is that of the objects before it: L7 at its name where it is the 65,536th.
#[tactic(auto, unfolding(crate::specs::Expansion::make))]
pub fn make(alloc: Global, state: &mut State, x: &Ident, kind: Kind) -> Result<u32, FrontErr>
    ensures answers { Answers (λ k. k) (spec.make x.now kind state.old) result state.new }
    ensures objects { OnOk result (state.new.objects ≡ state.old.objects ++ record { name = x.now.name; place = x.now.place; kind = kind } ∷ []) }
{
    let number = state.objects.len();
    if number >= MOST_OBJECTS {
        return Err(broken(Rule::L7, x.place));
    }
    match Name::new(alloc, x.name.as_bytes()) {
        Ok(name) => {
            let object = Object {
                name,
                place: x.place,
                kind,
            };
            match state.objects.push(object) {
                Ok(()) => Ok(number as u32),
                Err(_) => Err(FrontErr::NoMemory),
            }
        }
        Err(_) => Err(FrontErr::NoMemory),
    }
}

/// Makes an object that keeps its rules and is no port, and declares its name, which the table hasn't yet: L7 at its name where
/// it is the 65,536th object.
#[tactic(auto, using(crate::proofs::Longer::grows_by))]
pub fn declare_object<'t>(
    alloc: Global,
    state: &mut State,
    names: &mut Names<'t>,
    x: &'t Ident,
    kind: Kind,
) -> Result<(), FrontErr>
    requires new { (around : s.Scope) → s.is_declared x.now.name (scope_in names.old.entries around) ≡ false }
    requires few { HasFewElements kind }
    requires sound { AreSound (kinds_of state.old.objects) }
    requires kind { IsKind (kinds_of state.old.objects) kind }
    requires no_port { is_port kind ≡ false }
    ensures answers { (around : Scope) (calls : ℕ) →
        AnswersNames names.new.entries around calls (object (context_in names.old.entries around calls) x.now kind state.old) result state.new }
    ensures grows { OnOk result (Grows state.old.objects state.new.objects) }
{
    match make(alloc, state, x, kind) {
        Ok(k) => match declare(names, x.name.as_bytes(), Declared::Object(k)) {
            Ok(()) => Ok(()),
            Err(NoMemory) => Err(FrontErr::NoMemory),
        },
        Err(e) => Err(e),
    }
}

/// Makes an array and declares its name, which the table hasn't yet: L7 at its name where it is the 65,536th object, then L9
/// where it has more than 4,096 elements.
#[tactic(auto, unfolding(crate::specs::Expansion::make))]
pub fn declare_array<'t>(
    alloc: Global,
    state: &mut State,
    names: &mut Names<'t>,
    x: &'t Ident,
    t: ValueType,
    all: FirstValues,
) -> Result<(), FrontErr>
    requires new { (around : s.Scope) → s.is_declared x.now.name (scope_in names.old.entries around) ≡ false }
    requires sound { AreSound (kinds_of state.old.objects) }
    requires width { IsWidth t.width }
    requires least { 1 ≤ all.count }
    requires values { length all.values ≤ all.count }
    requires typed { All (HasType t.width t.signed) all.values }
    ensures answers { (around : Scope) (calls : ℕ) →
        AnswersNames names.new.entries around calls (object (context_in names.old.entries around calls) x.now (kind.Array t.width t.signed all.count all.values) state.old) result state.new }
    ensures grows { OnOk result (Grows state.old.objects state.new.objects) }
{
    if all.count <= MOST_ELEMENTS {
        let kind = Kind::Array {
            width: t.width,
            signed: t.signed,
            length: all.count as u32,
            init: all.values,
        };
        declare_object(alloc, state, names, x, kind)
    } else if state.objects.len() >= MOST_OBJECTS {
        Err(broken(Rule::L7, x.place))
    } else {
        Err(broken(Rule::L9, x.place))
    }
}
