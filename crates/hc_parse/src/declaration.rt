ghost use Rattle.std.specs.Prelude.{◌≡◌, ◌≢◌, true, false, Some, option_map};
ghost use Rattle.hc_grammar.specs.Answers.{Answers, AnswersTo};
ghost use Rattle.hc_grammar.specs.Expression.{begins_type};
ghost use Rattle.hc_grammar.specs.Form as f;
ghost use Rattle.hc_exparse.specs.Ops.{next_kind};

use crate::memories::{Initial, allowed, memories_tail};
use crate::signals::{chans, signals};
use crate::variables::vars_tail;
use hc_grammar::{Cursor, Halt, Kind};
use hc_tree::{Decl, MemoryKind, Place};
use std::alloc::Global;

/// Whether a type begins here.
#[tactic(auto, unfolding(hc_grammar::specs::Expression::begins_type))]
fn is_at_type(c: &Cursor<'_>) -> bool
    ensures yes { result ≡ true → option_map begins_type (next_kind c.now) ≡ Some true }
    ensures no { result ≡ false → option_map begins_type (next_kind c.now) ≢ Some true }
{
    if c.is(Kind::Unsigned) {
        return true;
    }
    if c.is(Kind::Signed) {
        return true;
    }
    c.is(Kind::Int)
}

/// `decl`: a declaration. One that is local, in a block, gives values only behind `static`, in a `rom` and in a signal.
pub(crate) fn decl(alloc: Global, c: &mut Cursor<'_>, local: bool) -> Result<Decl, Halt>
    ensures { Answers (f.decl local) c.old result c.new }
{
    let place = c.place();
    if c.is(Kind::Static) {
        c.take();
        return static_tail(alloc, c, place);
    }
    if c.is(Kind::Ram) {
        c.take();
        return memories_tail(alloc, c, allowed(!local), place, false, MemoryKind::Ram);
    }
    if c.is(Kind::Rom) {
        c.take();
        return memories_tail(alloc, c, Initial::Always, place, false, MemoryKind::Rom);
    }
    if c.is(Kind::Signal) {
        return signals(alloc, c);
    }
    if c.is(Kind::Chan) {
        return chans(alloc, c);
    }
    if !is_at_type(c) {
        return Err(Halt::Refused(None));
    }
    vars_tail(alloc, c, !local, place, false)
}

/// `static_tail`: what is declared behind `static`.
fn static_tail(alloc: Global, c: &mut Cursor<'_>, place: Place) -> Result<Decl, Halt>
    ensures { AnswersTo f.static_tail (λ tail. tail place) c.old result c.new }
{
    if c.is(Kind::Ram) {
        c.take();
        return memories_tail(alloc, c, Initial::Maybe, place, true, MemoryKind::Ram);
    }
    if c.is(Kind::Rom) {
        c.take();
        return memories_tail(alloc, c, Initial::Always, place, true, MemoryKind::Rom);
    }
    if !is_at_type(c) {
        return Err(Halt::Refused(None));
    }
    vars_tail(alloc, c, true, place, true)
}
