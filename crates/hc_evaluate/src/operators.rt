ghost use Rattle.std.specs.Prelude.{◌≡◌, IfOk};
ghost use Rattle.hc_core.specs.Typed.{kinds_of};
ghost use Rattle.hc_width.specs.Operand.{operand, IsOperand};
ghost use Rattle.hc_width.specs.Unary.{IsPrefix};
ghost use Rattle.hc_scope.specs.Expression as spec;
ghost use Rattle.hc_scope.specs.Reading.{context_of, Answers};
ghost use Rattle.hc_evaluate.specs.Nests.{Nests};
ghost use Rattle.hc_scope.specs.Nodes.{nodes};
ghost use Rattle.hc_scope.specs.Sound.{AreSound};
ghost use Rattle.hc_tree.specs.declared.expr.ExprTree.TheOpen.{ExprTree-F};

use crate::parts::Parts;
use hc_core::{BinOp, UnOp};
use hc_scope::{Scope, State, broken};
use hc_tree::{BinaryOp, ExprTree, FrontErr, Place, Rule, Type, UnaryOp};
use hc_width::{Value, Whole, binary, cast, choose, cut, type_of, unary};
use std::alloc::Global;

// The operator of the core.
fn unary_of(op: UnaryOp) -> UnOp
    ensures value { result ≡ spec.unary_of op }
    ensures prefix { IsPrefix result }
{
    match op {
        UnaryOp::Not => UnOp::IsZero,
        UnaryOp::Complement => UnOp::Not,
        UnaryOp::Negate => UnOp::Neg,
    }
}

// The operator of the core.
fn binary_of(op: BinaryOp) -> BinOp
    ensures { result ≡ spec.binary_of op }
{
    match op {
        BinaryOp::Take => BinOp::Take,
        BinaryOp::Drop => BinOp::Drop,
        BinaryOp::Multiply => BinOp::Mul,
        BinaryOp::Divide => BinOp::Div,
        BinaryOp::Remainder => BinOp::Rem,
        BinaryOp::Add => BinOp::Add,
        BinaryOp::Subtract => BinOp::Sub,
        BinaryOp::Concat => BinOp::Concat,
        BinaryOp::ShiftLeft => BinOp::Shl,
        BinaryOp::ShiftRight => BinOp::Shr,
        BinaryOp::Less => BinOp::Lt,
        BinaryOp::LessEqual => BinOp::Le,
        BinaryOp::Greater => BinOp::Gt,
        BinaryOp::GreaterEqual => BinOp::Ge,
        BinaryOp::Equal => BinOp::Eq,
        BinaryOp::NotEqual => BinOp::Ne,
        BinaryOp::BitAnd => BinOp::And,
        BinaryOp::BitXor => BinOp::Xor,
        BinaryOp::BitOr => BinOp::Or,
        BinaryOp::Both => BinOp::Both,
        BinaryOp::Either => BinOp::Either,
    }
}

// The width of an operand as a constant, or S12 where it has none.
#[tactic(auto, using(hc_width::proofs::Kept::some_type))]
fn measured(state: &State, v: Value, place: Place) -> Result<Value, FrontErr>
    requires { IsOperand (kinds_of state.now.objects) (operand v) }
    ensures answers { Answers operand (spec.measured place (operand v) state.now) result state.now }
    ensures typed { IfOk result (λ w. IsOperand (kinds_of state.now.objects) (operand w)) }
{
    match v {
        Value::Constant(_) => Err(broken(Rule::S12, place)),
        Value::Typed(e) => {
            let (width, _) = type_of(&state.objects, &e);
            drop(e);
            Ok(Value::Constant(Whole::from_number(u128::from(width))))
        }
    }
}

impl<
    F: Copy
        + for<'s, 't> Fn(
            Global,
            &mut State,
            &Scope<'s, 't>,
            u32,
            u32,
            &'t ExprTree,
        ) -> Result<Value, FrontErr>,
    G: Copy,
> Parts<F, G> {
    // `width ( expr )`
    pub(crate) fn width<'s, 't>(
        &self,
        state: &mut State,
        scope: &Scope<'s, 't>,
        calls: u32,
        place: Place,
        of: &'t ExprTree,
    ) -> Result<Value, FrontErr>
        requires nests { Nests self.now.room (F.pre self.now.expression) (F.post self.now.expression) }
        requires sound { AreSound (kinds_of state.old.objects) }
        ensures answers { Answers operand (spec.expression_layer (nodes self.now.room) (context_of scope.now calls) (ExprTree-F.Width place of.now) state.old) result state.new }
        ensures typed { IfOk result (λ v. IsOperand (kinds_of state.old.objects) (operand v)) }
        ensures objects { state.new.objects ≡ state.old.objects }
    {
        match self.expression(state, scope, calls, of) {
            Ok(v) => measured(state, v, place),
            Err(e) => Err(e),
        }
    }

    // `select ( expr , expr , expr )`, where only one of the last two is expanded.
    pub(crate) fn select<'s, 't>(
        &self,
        state: &mut State,
        scope: &Scope<'s, 't>,
        calls: u32,
        place: Place,
        condition: &'t ExprTree,
        yes: &'t ExprTree,
        no: &'t ExprTree,
    ) -> Result<Value, FrontErr>
        requires nests { Nests self.now.room (F.pre self.now.expression) (F.post self.now.expression) }
        requires sound { AreSound (kinds_of state.old.objects) }
        ensures answers { Answers operand (spec.expression_layer (nodes self.now.room) (context_of scope.now calls) (ExprTree-F.Select place condition.now yes.now no.now) state.old) result state.new }
        ensures typed { IfOk result (λ v. IsOperand (kinds_of state.old.objects) (operand v)) }
        ensures objects { state.new.objects ≡ state.old.objects }
    {
        match self.constant(state, scope, calls, condition) {
            Ok(v) => {
                if v.holds() {
                    self.expression(state, scope, calls, yes)
                } else {
                    self.expression(state, scope, calls, no)
                }
            }
            Err(e) => Err(e),
        }
    }

    // `expr [ expr : expr ]`
    pub(crate) fn bits<'s, 't>(
        &self,
        state: &mut State,
        scope: &Scope<'s, 't>,
        calls: u32,
        place: Place,
        of: &'t ExprTree,
        high: &'t ExprTree,
        low: &'t ExprTree,
    ) -> Result<Value, FrontErr>
        requires nests { Nests self.now.room (F.pre self.now.expression) (F.post self.now.expression) }
        requires sound { AreSound (kinds_of state.old.objects) }
        ensures answers { Answers operand (spec.expression_layer (nodes self.now.room) (context_of scope.now calls) (ExprTree-F.Bits place of.now high.now low.now) state.old) result state.new }
        ensures typed { IfOk result (λ v. IsOperand (kinds_of state.old.objects) (operand v)) }
        ensures objects { state.new.objects ≡ state.old.objects }
    {
        match self.expression(state, scope, calls, of) {
            Ok(v) => match self.constant(state, scope, calls, high) {
                Ok(high) => match self.constant(state, scope, calls, low) {
                    Ok(low) => cut(self.alloc, &state.objects, v, high, low, place),
                    Err(e) => {
                        drop(v);
                        Err(e)
                    }
                },
                Err(e) => {
                    drop(v);
                    Err(e)
                }
            },
            Err(e) => Err(e),
        }
    }

    // An operator before its operand.
    pub(crate) fn unary<'s, 't>(
        &self,
        state: &mut State,
        scope: &Scope<'s, 't>,
        calls: u32,
        place: Place,
        op: UnaryOp,
        of: &'t ExprTree,
    ) -> Result<Value, FrontErr>
        requires nests { Nests self.now.room (F.pre self.now.expression) (F.post self.now.expression) }
        requires sound { AreSound (kinds_of state.old.objects) }
        ensures answers { Answers operand (spec.expression_layer (nodes self.now.room) (context_of scope.now calls) (ExprTree-F.Unary place op of.now) state.old) result state.new }
        ensures typed { IfOk result (λ v. IsOperand (kinds_of state.old.objects) (operand v)) }
        ensures objects { state.new.objects ≡ state.old.objects }
    {
        match self.expression(state, scope, calls, of) {
            Ok(v) => unary(self.alloc, &state.objects, unary_of(op), v, place),
            Err(e) => Err(e),
        }
    }

    // `( type ) expr`
    pub(crate) fn cast<'s, 't>(
        &self,
        state: &mut State,
        scope: &Scope<'s, 't>,
        calls: u32,
        place: Place,
        to: &'t Type,
        of: &'t ExprTree,
    ) -> Result<Value, FrontErr>
        requires nests { Nests self.now.room (F.pre self.now.expression) (F.post self.now.expression) }
        requires sound { AreSound (kinds_of state.old.objects) }
        ensures answers { Answers operand (spec.expression_layer (nodes self.now.room) (context_of scope.now calls) (ExprTree-F.Cast place to.now of.now) state.old) result state.new }
        ensures typed { IfOk result (λ v. IsOperand (kinds_of state.old.objects) (operand v)) }
        ensures objects { state.new.objects ≡ state.old.objects }
    {
        match self.type_of(state, scope, calls, to) {
            Ok(t) => match self.expression(state, scope, calls, of) {
                Ok(v) => cast(self.alloc, &state.objects, t.width, t.signed, v, place),
                Err(e) => Err(e),
            },
            Err(e) => Err(e),
        }
    }

    // An operator between two operands.
    pub(crate) fn binary<'s, 't>(
        &self,
        state: &mut State,
        scope: &Scope<'s, 't>,
        calls: u32,
        place: Place,
        left: &'t ExprTree,
        op: BinaryOp,
        right: &'t ExprTree,
    ) -> Result<Value, FrontErr>
        requires nests { Nests self.now.room (F.pre self.now.expression) (F.post self.now.expression) }
        requires sound { AreSound (kinds_of state.old.objects) }
        ensures answers { Answers operand (spec.expression_layer (nodes self.now.room) (context_of scope.now calls) (ExprTree-F.Binary place left.now op right.now) state.old) result state.new }
        ensures typed { IfOk result (λ v. IsOperand (kinds_of state.old.objects) (operand v)) }
        ensures objects { state.new.objects ≡ state.old.objects }
    {
        match self.expression(state, scope, calls, left) {
            Ok(a) => match self.expression(state, scope, calls, right) {
                Ok(b) => binary(self.alloc, &state.objects, binary_of(op), a, b, place),
                Err(e) => {
                    drop(a);
                    Err(e)
                }
            },
            Err(e) => Err(e),
        }
    }

    // `expr ? expr : expr`
    pub(crate) fn choice<'s, 't>(
        &self,
        state: &mut State,
        scope: &Scope<'s, 't>,
        calls: u32,
        place: Place,
        condition: &'t ExprTree,
        yes: &'t ExprTree,
        no: &'t ExprTree,
    ) -> Result<Value, FrontErr>
        requires nests { Nests self.now.room (F.pre self.now.expression) (F.post self.now.expression) }
        requires sound { AreSound (kinds_of state.old.objects) }
        ensures answers { Answers operand (spec.expression_layer (nodes self.now.room) (context_of scope.now calls) (ExprTree-F.Choice place condition.now yes.now no.now) state.old) result state.new }
        ensures typed { IfOk result (λ v. IsOperand (kinds_of state.old.objects) (operand v)) }
        ensures objects { state.new.objects ≡ state.old.objects }
    {
        match self.expression(state, scope, calls, condition) {
            Ok(c) => match self.expression(state, scope, calls, yes) {
                Ok(a) => match self.expression(state, scope, calls, no) {
                    Ok(b) => choose(self.alloc, &state.objects, c, a, b, place),
                    Err(e) => {
                        drop(a);
                        drop(c);
                        Err(e)
                    }
                },
                Err(e) => {
                    drop(c);
                    Err(e)
                }
            },
            Err(e) => Err(e),
        }
    }
}
