ghost use Rattle.std.specs.Prelude.{◌≡◌, List, ◌∷◌, All, IfOk, OnOk};
ghost use Rattle.hc_core.specs.Read as read;
ghost use Rattle.hc_core.specs.Read.{expression};
ghost use Rattle.hc_core.specs.Sound as sound;
ghost use Rattle.hc_core.specs.Sound.{HasType, IsWidth};
ghost use Rattle.hc_core.specs.Typed.{kinds_of};
ghost use Rattle.hc_tree.specs.declared.stmt.Label as labels;
ghost use Rattle.hc_width.specs.Operand.{operand, IsOperand, IsTyped};
ghost use Rattle.hc_scope.specs.Lists.{Continues};
ghost use Rattle.hc_scope.specs.Labelled.{labels_behind};
ghost use Rattle.hc_scope.specs.Nodes.{nodes};
ghost use Rattle.hc_scope.specs.Reading.{context_of, Answers};
ghost use Rattle.hc_expand.specs.Runs.{Runs};
ghost use Rattle.hc_scope.specs.Sound.{AreSound, Grows};
ghost use Rattle.hc_scope.specs.Statement as spec;
ghost use Rattle.hc_scope.specs.Types.{type_read};

use crate::statements::Statements;
use hc_core::{Expr, Nums, Stmt};
use hc_evaluate as of;
use hc_evaluate::initial;
use hc_scope::{Scope, State, ValueType, broken, place_of};
use hc_tree as tree;
use hc_tree::{ExprTree, FrontErr, Label, Place, Rule};
use hc_width::{Value, type_of};
use sqlite_items::Items;
use std::alloc::Global;

impl<
    F: Copy
        + for<'s, 't> Fn(
            Global,
            &mut State,
            &'s Scope<'s, 't>,
            u32,
            u32,
            &'t tree::Stmt,
        ) -> Result<Stmt, FrontErr>,
> Statements<F> {
    // A `switch`: its selector has a type, which the labels of its arms have too.
    #[tactic(auto, using(hc_evaluate::proofs::Steps::err_then, hc_evaluate::proofs::Steps::value_then, crate::proofs::Branches::read_switch, crate::proofs::Branches::switch_typed, crate::proofs::Branches::selector_width, hc_width::proofs::Kept::some_type), unfolding(hc_scope::specs::Statement::switch))]
    pub(crate) fn switch<'s, 't>(
        &self,
        state: &mut State,
        scope: &'s Scope<'s, 't>,
        calls: u32,
        place: Place,
        selector: &'t ExprTree,
        all: &'t [tree::Arm],
    ) -> Result<Stmt, FrontErr>
        requires runs { Runs self.now.room (F.pre self.now.statement) (F.post self.now.statement) }
        requires sound { AreSound (kinds_of state.old.objects) }
        ensures answers { Answers read.statement (spec.switch (nodes self.now.room) (context_of scope.now calls) place selector.now all.now state.old) result state.new }
        ensures typed { IfOk result (λ v. sound.IsTyped (kinds_of state.new.objects) (read.statement v)) }
        ensures grows { OnOk result (Grows state.old.objects state.new.objects) }
    {
        match of::expression(self.alloc, state, &*scope, calls, self.room, selector) {
            Ok(v) => match needs_type(state, v, place_of(selector)) {
                Ok(e) => self.switch_on(state, &*scope, calls, place, e, all),
                Err(e) => Err(e),
            },
            Err(e) => Err(e),
        }
    }

    // A `switch` on a selector.
    #[tactic(auto, using(hc_evaluate::proofs::Steps::err_then, hc_evaluate::proofs::Steps::value_then, crate::proofs::Branches::read_switch, crate::proofs::Branches::switch_typed, crate::proofs::Branches::selector_width, hc_width::proofs::Kept::some_type))]
    fn switch_on<'s, 't>(
        &self,
        state: &mut State,
        scope: &'s Scope<'s, 't>,
        calls: u32,
        place: Place,
        selector: Expr,
        all: &'t [tree::Arm],
    ) -> Result<Stmt, FrontErr>
        requires runs { Runs self.now.room (F.pre self.now.statement) (F.post self.now.statement) }
        requires sound { AreSound (kinds_of state.old.objects) }
        requires selector { IsTyped (kinds_of state.old.objects) (expression selector) }
        ensures answers { Answers read.statement (spec.switch_on (nodes self.now.room) (context_of scope.now calls) place (expression selector) all.now state.old) result state.new }
        ensures typed { IfOk result (λ v. sound.IsTyped (kinds_of state.new.objects) (read.statement v)) }
        ensures grows { OnOk result (Grows state.old.objects state.new.objects) }
    {
        let (width, signed) = type_of(&state.objects, &selector);
        let of = ValueType { width, signed };
        match self.arms(state, &*scope, calls, of, all) {
            Ok(arms) => Ok(Stmt::Switch {
                place,
                selector,
                arms,
            }),
            Err(e) => {
                drop(selector);
                Err(e)
            }
        }
    }
}

/// The selector as an expression: it has to have a type, else S12.
pub(crate) fn needs_type(state: &State, v: Value, place: Place) -> Result<Expr, FrontErr>
    requires { IsOperand (kinds_of state.now.objects) (operand v) }
    ensures answers { Answers expression (spec.needs_type place (operand v) state.now) result state.now }
    ensures typed { IfOk result (λ e. IsTyped (kinds_of state.now.objects) (expression e)) }
{
    match v {
        Value::Constant(_) => Err(broken(Rule::S12, place)),
        Value::Typed(e) => Ok(e),
    }
}

/// Whether a `default` is among the labels of an arm.
pub(crate) fn has_default(mut labels: &[Label]) -> bool
    ensures { result ≡ spec.has_default labels.entry.now }
{
    while let [label, rest @ ..] = labels {
        match label {
            Label::Case { .. } => labels = rest,
            Label::Default { .. } => return true,
        }
    }
    false
}

/// The numbers of an arm's labels, one after another, which have the selector's type.
#[tactic(auto, using(crate::proofs::Labelled::labels_none, crate::proofs::Labelled::labels_all))]
pub(crate) fn label_numbers<'s, 't>(
    alloc: Global,
    state: &mut State,
    scope: &Scope<'s, 't>,
    calls: u32,
    room: u32,
    t: ValueType,
    mut labels: &'t [Label],
) -> Result<Nums, FrontErr>
    requires sound { AreSound (kinds_of state.old.objects) }
    requires width { IsWidth t.width }
    ensures answers { Answers (λ ns. ns) (spec.labels (nodes room) (context_of scope.now calls) (type_read t) labels.entry.now state.old) result state.new }
    ensures typed { IfOk result (λ ns. All (HasType t.width t.signed) ns) }
    ensures objects { state.new.objects ≡ state.old.objects }
{
    let mut numbers = Items::new(alloc);
    while let [label, rest @ ..] = labels {
        match add_label(alloc, state, scope, calls, room, t, &mut numbers, label) {
            Ok(()) => labels = rest,
            Err(e) => return Err(e),
        }
    }
    Ok(numbers)
}

// The number of one more label behind those before; a `default` has none.
#[tactic(auto, using(crate::proofs::Labelled::label_one, crate::proofs::Labelled::label_refused, hc_scope::proofs::Fitted::one_more_typed))]
fn add_label<'s, 't>(
    alloc: Global,
    state: &mut State,
    scope: &Scope<'s, 't>,
    calls: u32,
    room: u32,
    t: ValueType,
    numbers: &mut Nums,
    label: &'t Label,
) -> Result<(), FrontErr>
    requires sound { AreSound (kinds_of state.old.objects) }
    requires width { IsWidth t.width }
    requires typed { All (HasType t.width t.signed) numbers.old }
    ensures answers { let c = context_of scope.now calls in
        (rest : List labels.Label) → Continues (labels_behind (nodes room) c (type_read t) numbers.old (label.now ∷ rest) state.old) (labels_behind (nodes room) c (type_read t) numbers.new rest state.new) result }
    ensures typed { OnOk result (All (HasType t.width t.signed) numbers.new) }
    ensures objects { state.new.objects ≡ state.old.objects }
{
    match label {
        Label::Case {
            place: _place,
            value,
        } => match initial(alloc, state, scope, calls, room, t, value) {
            Ok(n) => match numbers.push(n) {
                Ok(()) => Ok(()),
                Err(_) => Err(FrontErr::NoMemory),
            },
            Err(e) => Err(e),
        },
        Label::Default { .. } => Ok(()),
    }
}
