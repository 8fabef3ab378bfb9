ghost use Rattle.std.specs.Prelude.{◌≡◌, ◌++◌, IfOk, IfErr};
ghost use Rattle.hc_tree.specs.declared.refusal.Refusal.{Refusal};
ghost use Rattle.hc_tree.specs.declared.item.Tree.{Tree};
ghost use Rattle.hc_grammar.specs.Answers.{Answers, AnswersIn};
ghost use Rattle.hc_grammar.specs.Form as f;
ghost use Rattle.hc_parse.specs.Checked.{Passes};
ghost use Rattle.hc_parse.specs.Parsed.{Parses, FirstRefusal, IsTree};
ghost use Rattle.hc_parse.specs.Refused.{IfRefused, IsRefusal};

use crate::check::check_tokens;
use crate::item::item;
use crate::laws::one_tree;
use hc_grammar::{Cursor, Halt, read_or_stopped, reads_where, stops_where};
use hc_lex::Tokens;
use hc_tree::{Detail, FrontErr, Item, Place, Refusal, Rule, Tree};
use sqlite_items::Items;
use std::alloc::Global;

/// The tree of a source's tokens, or what they break first: S3 at a word that the language leaves out, then L3 at a token
/// that is nested more than 200 deep, then S2 at the first token with which the tokens so far begin no source, or at the
/// end (this project's own).
pub fn parse(alloc: Global, tokens: &Tokens) -> Result<Tree, FrontErr>
    ensures tree { IfOk result (λ tree. Parses tokens.now.tokens tree) }
    ensures refused { IfErr result (λ e. IfRefused e (FirstRefusal tokens.now.tokens tokens.now.end)) }
    ensures accepts { (tree : Tree) → Parses tokens.now.tokens tree → IsTree tree result }
    ensures refuses { (r : Refusal) → FirstRefusal tokens.now.tokens tokens.now.end r → IsRefusal r result }
{
    one_tree();
    parsed(alloc, tokens)
}

/// The checks, and then the grammar.
fn parsed(alloc: Global, tokens: &Tokens) -> Result<Tree, FrontErr>
    ensures tree { IfOk result (λ tree. Parses tokens.now.tokens tree) }
    ensures refused { IfErr result (λ e. IfRefused e (FirstRefusal tokens.now.tokens tokens.now.end)) }
{
    match check_tokens(alloc, tokens) {
        Ok(()) => read(alloc, tokens),
        Err(e) => Err(e),
    }
}

/// The grammar, for tokens that pass the checks.
fn read(alloc: Global, tokens: &Tokens) -> Result<Tree, FrontErr>
    requires { Passes tokens.now.tokens }
    ensures tree { IfOk result (λ tree. Parses tokens.now.tokens tree) }
    ensures refused { IfErr result (λ e. IfRefused e (FirstRefusal tokens.now.tokens tokens.now.end)) }
{
    read_or_stopped();
    stops_where();
    reads_where();
    let mut c = Cursor::new(tokens, 0);
    match program(alloc, &mut c) {
        Ok(tree) => Ok(tree),
        Err(Halt::Refused(_)) => Err(refused(c.place())),
        Err(Halt::NoMemory) => Err(FrontErr::NoMemory),
    }
}

fn refused(place: Place) -> FrontErr
    ensures { result ≡ FrontErr.Refused (record { rule = Rule.S2; place = place; detail = Detail.Nothing }) }
{
    FrontErr::Refused(Refusal {
        rule: Rule::S2,
        place,
        detail: Detail::Nothing,
    })
}

/// `program`: the items of a source.
fn program(alloc: Global, c: &mut Cursor<'_>) -> Result<Tree, Halt>
    ensures { Answers f.program c.old result c.new }
{
    let mut list = Items::new(alloc);
    match items(alloc, c, &mut list) {
        Ok(()) => Ok(Tree { items: list }),
        Err(halt) => Err(halt),
    }
}

/// `items`: the items up to the end, put behind those of `list`.
fn items(alloc: Global, c: &mut Cursor<'_>, list: &mut Items<Item>) -> Result<(), Halt>
    ensures { AnswersIn f.items (λ more. list.old ++ more) c.old result list.new c.new }
{
    reads_where();
    'each: while c.len() != 0 {
        let next = match item(alloc, c) {
            Ok(next) => next,
            Err(halt) => return Err(halt),
        };
        match list.push(next) {
            Ok(()) => {}
            Err(_) => return Err(Halt::NoMemory),
        }
    }
    Ok(())
}
