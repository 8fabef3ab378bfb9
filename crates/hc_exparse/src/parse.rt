ghost use Rattle.std.specs.Prelude.{◌≡◌, ◌≤◌, ◌+◌, ◌-◌, drop, take, length, IfOk, IfErr};
ghost use Rattle.hc_tree.specs.declared.expr.ExprTree.{ExprTree};
ghost use Rattle.hc_tree.specs.declared.refusal.FrontErr.TheVariants.{NoMemory};
ghost use Rattle.hc_grammar.specs.Form as f;
ghost use Rattle.hc_grammar.specs.Grammar.{grammar};
ghost use Rattle.hc_grammar.specs.Table.{Spells, IsStop, IsLongest};
ghost use Rattle.hc_exparse.specs.Parsed.{IsOrdered, IfRefused};

use crate::expression::whole;
use hc_grammar::{Cursor, Halt, one_reading, read_or_stopped, reads_where, stops_where};
use hc_lex::Tokens;
use hc_tree::{Detail, ExprTree, FrontErr, Place, Refusal, Rule};
use std::alloc::Global;

fn refused(place: Place) -> FrontErr
    ensures { result ≡ FrontErr.Refused (record { rule = Rule.S2; place = place; detail = Detail.Nothing }) }
{
    FrontErr::Refused(Refusal {
        rule: Rule::S2,
        place,
        detail: Detail::Nothing,
    })
}

/// The expression that the `count` tokens from number `from` on are.
fn tree_of(alloc: Global, tokens: &Tokens, from: usize, count: usize) -> Result<ExprTree, FrontErr>
    requires within { from + count ≤ length tokens.now.tokens }
    requires is_one { (v : ExprTree) × Spells grammar f.expr v (take count (drop from tokens.now.tokens)) }
    ensures spells { IfOk result (λ e. Spells grammar f.expr e (take count (drop from tokens.now.tokens))) }
    ensures memory { IfErr result (λ e. e ≡ NoMemory) }
{
    one_reading();
    read_or_stopped();
    let mut c = Cursor::front(tokens, from, count);
    match whole(alloc, &mut c) {
        Ok(tree) => Ok(tree),
        Err(Halt::NoMemory) => Err(FrontErr::NoMemory),
        Err(Halt::Refused(_)) => unreachable!(),
    }
}

/// The longest expression from token number `from` on, counted from 0, the number of the token behind it, and the stop:
/// the number of the first token, the end counted as one, with which the tokens from `from` on begin no expression. S2
/// at the stop where no expression begins there.
pub fn parse_expr(
    alloc: Global,
    tokens: &Tokens,
    from: usize,
) -> Result<(ExprTree, usize, usize), FrontErr>
    requires { from ≤ length tokens.now.tokens }
    ensures order { IfOk result (λ r. IsOrdered from r.1 r.2 (length tokens.now.tokens)) }
    ensures longest { IfOk result (λ r. IsLongest grammar f.expr (drop from tokens.now.tokens) r.0 (r.1 - from)) }
    ensures stop { IfOk result (λ r. IsStop grammar f.expr (drop from tokens.now.tokens) (r.2 - from)) }
    ensures refused { IfErr result (λ e. IfRefused tokens.now from e) }
{
    reads_where();
    stops_where();
    let total = tokens.as_slice().len();
    let mut c = Cursor::new(tokens, from);
    match whole(alloc, &mut c) {
        Ok(tree) => {
            let next = total - c.len();
            Ok((tree, next, next))
        }
        Err(Halt::Refused(Some(count))) => {
            let stop = total - c.len();
            match tree_of(alloc, tokens, from, count) {
                Ok(tree) => Ok((tree, from + count, stop)),
                Err(e) => Err(e),
            }
        }
        Err(Halt::Refused(None)) => Err(refused(c.place())),
        Err(Halt::NoMemory) => Err(FrontErr::NoMemory),
    }
}
