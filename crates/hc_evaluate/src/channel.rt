ghost use Rattle.std.specs.Prelude.{◌≡◌, ℕ, IfOk, Some, None, slice_get};
ghost use Rattle.hc_core.specs.Read as read;
ghost use Rattle.hc_core.specs.Sound.{IsTarget, IsKept, IsWidth};
ghost use Rattle.hc_core.specs.Typed.{Typed, kinds_of};
ghost use Rattle.hc_width.specs.Judged.{equal_widths, equal_signs, Gives};
ghost use Rattle.hc_scope.specs.Expansion.{judged};
ghost use Rattle.hc_scope.specs.Nodes.{nodes};
ghost use Rattle.hc_scope.specs.Statement as spec;
ghost use Rattle.hc_scope.specs.Reading.{context_of, given_of, named_of, meaning_of, scope_of, Answers};
ghost use Rattle.hc_scope.specs.Sound.{AreSound};
ghost use Rattle.hc_evaluate.specs.Targets.{channel_read, IsChannelOf};
ghost use Rattle.hc_scope.specs.Types.{type_read};
ghost use Rattle.hc_scope.specs.declared.state.State as the_state;

use crate::expressions::expression;
use crate::targets::find_destination;
use crate::writing::{kept, target_of};
use hc_core::{Expr, Kind, Target};
use hc_scope::{
    Meaning, Named, Scope, State, ValueType, broken, broken_name, named, taken, widths_differ,
};
use hc_tree as tree;
use hc_tree::{ExprTree, FrontErr, Ident, Place, Rule};
use std::alloc::Global;

/// A channel.
#[derive(Clone, Copy)]
pub struct Channel {
    /// The number of the channel's object.
    pub number: u32,
    /// The type of what is sent.
    pub of: ValueType,
}

/// The channel of a name: S4 at the name where it isn't declared, and S6 where it is no channel's.
#[tactic(auto, unfolding(hc_scope::specs::Statement::channel))]
pub fn find_channel<'s, 't>(
    alloc: Global,
    state: &State,
    scope: &'s Scope<'s, 't>,
    x: &'t Ident,
) -> Result<Channel, FrontErr>
    requires sound { AreSound (kinds_of state.now.objects) }
    ensures answers { Answers channel_read (spec.channel (scope_of scope.now) x.now state.now) result state.now }
    ensures is { IfOk result (λ c. IsChannelOf (kinds_of state.now.objects) c.number c.of.width c.of.signed) }
    ensures width { IfOk result (λ c. IsWidth c.of.width) }
{
    let name = named(scope, x);
    channel_named(alloc, state, &name)
}

// The channel of a name at the end of the parameters.
fn channel_named<'s, 't>(
    alloc: Global,
    state: &State,
    name: &Named<'s, 't>,
) -> Result<Channel, FrontErr>
    requires sound { AreSound (kinds_of state.now.objects) }
    ensures answers { Answers channel_read (spec.channel_named (named_of name.now) state.now) result state.now }
    ensures is { IfOk result (λ c. IsChannelOf (kinds_of state.now.objects) c.number c.of.width c.of.signed) }
    ensures width { IfOk result (λ c. IsWidth c.of.width) }
{
    match name {
        Named::Missing(x) => Err(broken_name(alloc, Rule::S4, x)),
        Named::NoName(x) => Err(broken_name(alloc, Rule::S6, x)),
        Named::Known(x, meaning, given) => match given {
            Some(_) => Err(broken_name(alloc, Rule::S6, x)),
            None => channel_by(alloc, state, x, meaning),
        },
    }
}

// The channel of a name of a meaning.
fn channel_by<'s, 't>(
    alloc: Global,
    state: &State,
    x: &'t Ident,
    meaning: &Meaning<'s, 't>,
) -> Result<Channel, FrontErr>
    requires sound { AreSound (kinds_of state.now.objects) }
    ensures answers { Answers channel_read (spec.channel_by x.now None (meaning_of meaning.now) state.now) result state.now }
    ensures is { IfOk result (λ c. IsChannelOf (kinds_of state.now.objects) c.number c.of.width c.of.signed) }
    ensures width { IfOk result (λ c. IsWidth c.of.width) }
{
    match meaning {
        Meaning::Object(k) => channel_object(alloc, state, x, *k),
        Meaning::Interface(_, _) => Err(broken_name(alloc, Rule::S6, x)),
        Meaning::Number(_) => Err(broken_name(alloc, Rule::S6, x)),
        Meaning::Expression(_, _) => Err(broken_name(alloc, Rule::S6, x)),
        Meaning::Procedure(_, _) => Err(broken_name(alloc, Rule::S6, x)),
        Meaning::Argument(_, _) => Err(broken_name(alloc, Rule::S6, x)),
    }
}

// The channel that an object is.
fn channel_object<'t>(
    alloc: Global,
    state: &State,
    x: &'t Ident,
    k: u32,
) -> Result<Channel, FrontErr>
    requires sound { AreSound (kinds_of state.now.objects) }
    ensures answers { Answers channel_read (spec.channel_kind x.now k (slice_get (kinds_of state.now.objects) k) state.now) result state.now }
    ensures is { IfOk result (λ c. IsChannelOf (kinds_of state.now.objects) c.number c.of.width c.of.signed) }
    ensures width { IfOk result (λ c. IsWidth c.of.width) }
{
    match state.objects.get(k as usize) {
        Some(object) => channel_kind(alloc, x, k, &object.kind),
        None => Err(broken_name(alloc, Rule::S6, x)),
    }
}

// The channel that an object of a kind is.
fn channel_kind<'t>(alloc: Global, x: &'t Ident, k: u32, kind: &Kind) -> Result<Channel, FrontErr>
    ensures { (s : the_state.State) → Answers channel_read (spec.channel_kind x.now k (Some kind.now) s) result s }
{
    match kind {
        Kind::Reg { .. } => Err(broken_name(alloc, Rule::S6, x)),
        Kind::Array { .. } => Err(broken_name(alloc, Rule::S6, x)),
        Kind::Ram { .. } => Err(broken_name(alloc, Rule::S6, x)),
        Kind::Rom { .. } => Err(broken_name(alloc, Rule::S6, x)),
        Kind::Signal { .. } => Err(broken_name(alloc, Rule::S6, x)),
        Kind::Chan { width, signed, .. } => Ok(Channel {
            number: k,
            of: ValueType {
                width: *width,
                signed: *signed,
            },
        }),
        Kind::Input { .. } => Err(broken_name(alloc, Rule::S6, x)),
        Kind::Output { .. } => Err(broken_name(alloc, Rule::S6, x)),
    }
}

/// The value that is sent, with the channel's type: what it breaks itself, then S9 to S11 at this place.
#[tactic(auto, using(crate::proofs::Steps::err_then, crate::proofs::Steps::value_then), unfolding(hc_scope::specs::Statement::sent))]
pub fn sent<'s, 't>(
    alloc: Global,
    state: &mut State,
    scope: &'s Scope<'s, 't>,
    calls: u32,
    room: u32,
    place: Place,
    t: ValueType,
    value: &'t ExprTree,
) -> Result<Expr, FrontErr>
    requires sound { AreSound (kinds_of state.old.objects) }
    requires width { IsWidth t.width }
    ensures answers { Answers read.expression (spec.sent (nodes room) (context_of scope.now calls) place (type_read t) value.now state.old) result state.new }
    ensures typed { IfOk result (λ e. Typed (kinds_of state.old.objects) (read.expression e) t.width t.signed) }
    ensures objects { state.new.objects ≡ state.old.objects }
{
    match expression(alloc, state, scope, calls, room, value) {
        Ok(v) => taken(state, t, place, v),
        Err(e) => Err(e),
    }
}

/// What is received into, with the channel's type: S4 or S6 of what is written, with S6 where it is a signal, then what its
/// index breaks, then S9 and S10 at this place.
#[tactic(auto, using(crate::proofs::Steps::err_then, crate::proofs::Steps::value_then), unfolding(hc_scope::specs::Statement::received))]
pub fn received<'s, 't>(
    alloc: Global,
    state: &mut State,
    scope: &'s Scope<'s, 't>,
    calls: u32,
    room: u32,
    place: Place,
    t: ValueType,
    target: &'t tree::Target,
) -> Result<Target, FrontErr>
    requires sound { AreSound (kinds_of state.old.objects) }
    ensures answers { Answers read.target (spec.received (nodes room) (context_of scope.now calls) place (type_read t) target.now state.old) result state.new }
    ensures typed { IfOk result (λ to. IsTarget (kinds_of state.old.objects) (read.target to) t.width t.signed) }
    ensures kept { IfOk result (λ to. IsKept (read.target to)) }
    ensures objects { state.new.objects ≡ state.old.objects }
{
    match find_destination(alloc, state, scope, target) {
        Ok(d) => match kept(alloc, d.name, &d.to) {
            Ok(()) => match target_of(alloc, state, calls, room, d) {
                Ok(to) => same_type(t, d.of, place, to),
                Err(e) => Err(e),
            },
            Err(e) => Err(e),
        },
        Err(e) => Err(e),
    }
}

// A target whose type is to be another one's.
fn same_type(t: ValueType, of: ValueType, place: Place, to: Target) -> Result<Target, FrontErr>
    ensures answers { (s : the_state.State) → Answers read.target (judged place (equal_widths t.width of.width (equal_signs t.signed of.signed (Gives (read.target to)))) s) result s }
    ensures width { IfOk result (λ _. t.width ≡ of.width) }
    ensures signed { IfOk result (λ _. t.signed ≡ of.signed) }
    ensures same { IfOk result (λ found. found ≡ to) }
{
    if t.width != of.width {
        drop(to);
        Err(widths_differ(t.width, of.width, place))
    } else if t.signed != of.signed {
        drop(to);
        Err(broken(Rule::S10, place))
    } else {
        Ok(to)
    }
}
