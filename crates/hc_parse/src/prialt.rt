ghost use Rattle.std.specs.Prelude.{◌≡◌, ◌∷◌, [], Some, None};
ghost use Rattle.hc_tree.specs.declared.stmt.Case.{roll-Case};
ghost use Rattle.hc_exparse.specs.Last.{Makes};
ghost use Rattle.hc_grammar.specs.Answers.{Answers};
ghost use Rattle.hc_grammar.specs.Form as f;
ghost use Rattle.hc_parse.specs.CaseHead.{PassesCaseHead};
ghost use Rattle.hc_parse.specs.Turn.{AnswersAs, AnswersTurn, PassesBefore, next_kind};

use crate::block::stmts;
use crate::parts::opt_break;
use crate::written::target;
use hc_exparse::{expr, name};
use hc_grammar::{Cursor, Halt, Kind};
use hc_lex::Mark;
use hc_tree::{Case, Ident, Offer, Other, Place, Stmt};
use sqlite_items::{Boxed, Items};
use std::alloc::Global;

/// What stands in a case before its statements.
#[derive(Drop)]
pub(crate) struct CaseHead {
    channel: Ident,
    offer: Offer,
}

/// `prialt { case { case } [ other ] }`, where the outer braces are written.
#[cycle(statement)]
pub(crate) fn prialt(alloc: Global, c: &mut Cursor<'_>) -> Result<Stmt, Halt>
    requires { next_kind c.old ≡ Some Kind.Prialt }
    ensures { Answers f.stmt c.old result c.new }
{
    let place = c.place();
    c.take();
    match c.expect(Kind::Mark(Mark::BraceOpen)) {
        Ok(()) => {}
        Err(halt) => return Err(halt),
    }
    let (cases, other) = match cases(alloc, c) {
        Ok(read) => read,
        Err(halt) => return Err(halt),
    };
    match c.expect(Kind::Mark(Mark::BraceClose)) {
        Ok(()) => Ok(Stmt::Prialt {
            place,
            cases,
            other,
        }),
        Err(halt) => {
            drop(other);
            drop(cases);
            Err(halt)
        }
    }
}

/// `cases`: the parts of a `prialt`, of which the first is a case.
#[cycle(statement)]
fn cases(alloc: Global, c: &mut Cursor<'_>) -> Result<(Items<Case>, Option<Other>), Halt>
    ensures { Answers f.cases c.old result c.new }
{
    if !c.is(Kind::Case) {
        return Err(Halt::Refused(None));
    }
    match more_cases(alloc, c) {
        Ok(read) => Ok(read),
        Err(halt) => Err(halt),
    }
}

/// `more_cases`: cases, and perhaps a default. Behind one without `break` there is none.
#[cycle(statement)]
fn more_cases(alloc: Global, c: &mut Cursor<'_>) -> Result<(Items<Case>, Option<Other>), Halt>
    ensures { Answers f.more_cases c.old result c.new }
{
    let mut list = Items::new(alloc);
    'each: while c.is(Kind::Case) {
        let (case, has_break) = match case(alloc, c) {
            Ok(read) => read,
            Err(halt) => {
                drop(list);
                return Err(halt);
            }
        };
        match list.push(case) {
            Ok(()) => {}
            Err(_) => {
                drop(list);
                return Err(Halt::NoMemory);
            }
        }
        if !has_break {
            return Ok((list, None));
        }
    }
    if !c.is(Kind::Default) {
        return Ok((list, None));
    }
    match other(alloc, c) {
        Ok(other) => Ok((list, Some(other))),
        Err(halt) => {
            drop(list);
            Err(halt)
        }
    }
}

/// A case, and whether it ends with a `break`.
#[cycle(statement)]
fn case(alloc: Global, c: &mut Cursor<'_>) -> Result<(Case, bool), Halt>
    requires { next_kind c.old ≡ Some Kind.Case }
    ensures { AnswersTurn f.more_cases f.more_cases (λ case more. (case ∷ more.0, more.1)) (λ case. (case ∷ [], None)) c.old result c.new }
{
    let place = c.place();
    c.take();
    let head = match case_head(alloc, c) {
        Ok(head) => head,
        Err(halt) => return Err(halt),
    };
    let stmts = match stmts(alloc, c) {
        Ok(stmts) => stmts,
        Err(halt) => {
            drop(head);
            return Err(halt);
        }
    };
    match opt_break(c) {
        Ok(has_break) => Ok((case_of(place, head, stmts, has_break), has_break)),
        Err(halt) => {
            drop(stmts);
            drop(head);
            Err(halt)
        }
    }
}

/// A case of its parts.
fn case_of(place: Place, head: Boxed<CaseHead>, stmts: Items<Stmt>, has_break: bool) -> Case
    ensures { result ≡ roll-Case (record { place = place; channel = head.channel; offer = head.offer; stmts = stmts; has_break = has_break }) }
{
    let head = head.into_inner();
    Case {
        place,
        channel: head.channel,
        offer: head.offer,
        stmts,
        has_break,
    }
}

/// `name ( ! expr | ? target ) :`
fn case_head(alloc: Global, c: &mut Cursor<'_>) -> Result<Boxed<CaseHead>, Halt>
    ensures { PassesCaseHead c.old result c.new }
{
    let channel = match name(alloc, c) {
        Ok(channel) => channel,
        Err(halt) => return Err(halt),
    };
    match offer_before(alloc, c) {
        Ok(made) => head_of(alloc, channel, made),
        Err(halt) => Err(halt),
    }
}

fn head_of(alloc: Global, channel: Ident, offer: Offer) -> Result<Boxed<CaseHead>, Halt>
    ensures { Makes result (record { channel = channel; offer = offer }) }
{
    match Boxed::new(alloc, CaseHead { channel, offer }) {
        Ok(made) => Ok(made),
        Err(_) => Err(Halt::NoMemory),
    }
}

/// `offer` and the `:` behind it.
fn offer_before(alloc: Global, c: &mut Cursor<'_>) -> Result<Offer, Halt>
    ensures { PassesBefore f.offer (Kind.Mark Mark.Colon) c.old result c.new }
{
    let made = match offer(alloc, c) {
        Ok(made) => made,
        Err(halt) => return Err(halt),
    };
    match c.expect(Kind::Mark(Mark::Colon)) {
        Ok(()) => Ok(made),
        Err(halt) => {
            drop(made);
            Err(halt)
        }
    }
}

/// `offer`: `! expr` or `? target`
fn offer(alloc: Global, c: &mut Cursor<'_>) -> Result<Offer, Halt>
    ensures { Answers f.offer c.old result c.new }
{
    if c.is(Kind::Mark(Mark::Not)) {
        c.take();
        return match expr(alloc, c) {
            Ok(value) => Ok(Offer::Send(value)),
            Err(halt) => Err(halt),
        };
    }
    if !c.is(Kind::Mark(Mark::Question)) {
        return Err(Halt::Refused(None));
    }
    c.take();
    match target(alloc, c) {
        Ok(to) => Ok(Offer::Receive(to)),
        Err(halt) => Err(halt),
    }
}

/// `default : { stmt } [ break ; ]`
#[cycle(statement)]
fn other(alloc: Global, c: &mut Cursor<'_>) -> Result<Other, Halt>
    requires { next_kind c.old ≡ Some Kind.Default }
    ensures { AnswersAs f.more_cases (λ other. ([], Some other)) c.old result c.new }
{
    let place = c.place();
    c.take();
    match c.expect(Kind::Mark(Mark::Colon)) {
        Ok(()) => {}
        Err(halt) => return Err(halt),
    }
    let stmts = match stmts(alloc, c) {
        Ok(stmts) => stmts,
        Err(halt) => return Err(halt),
    };
    match other_end(c) {
        Ok(has_break) => Ok(Other {
            place,
            stmts,
            has_break,
        }),
        Err(halt) => {
            drop(stmts);
            Err(halt)
        }
    }
}

/// `other_end`: `[ break ; ]` behind the last part of a `prialt`.
fn other_end(c: &mut Cursor<'_>) -> Result<bool, Halt>
    ensures { Answers f.other_end c.old result c.new }
{
    opt_break(c)
}
