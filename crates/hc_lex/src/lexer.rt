ghost use Rattle.std.specs.Prelude.{◌≡◌, ◌<◌, ◌≤◌, ◌-◌, ◌^◌, length, IfOk, IfErr};
ghost use Rattle.std.specs.List.{All};
ghost use Rattle.hc_tree.specs.declared.refusal.FrontErr.TheVariants.{NoMemory};
ghost use Rattle.hc_lex.specs.Place.{start};
ghost use Rattle.hc_lex.specs.Lexes.{Lexes, Stops, HasTokens, IsShort, IfRefused};

use crate::cut::{cut, refused};
use crate::front::{Front, at_front};
use crate::place::place_behind;
use crate::token::Tokens;
use hc_tree::{FrontErr, Place, Rule};
use sqlite_items::Items;
use std::alloc::Global;

/// The tokens of a source. The first breach by place is refused: S1 at a byte with which no token begins, L1 at a word
/// or text of more than 255 bytes, L2 at the token after the 1,000,000th; at one token L1 before L2.
pub fn lex(alloc: Global, bytes: &[u8]) -> Result<Tokens, FrontErr>
    requires { length bytes.now < 2 ^ 32 - 1 }
    ensures reads { IfOk result (λ ts. Lexes start bytes.now ts.tokens ts.end) }
    ensures short { IfOk result (λ ts. All IsShort ts.tokens) }
    ensures few { IfOk result (λ ts. length ts.tokens ≤ 1000000) }
    ensures accepts { HasTokens 0 start bytes.now → IfErr result (λ e. e ≡ NoMemory) }
    ensures refused { IfErr result (λ e. IfRefused e (λ rule place. Stops 0 start bytes.now rule place)) }
{
    let mut list = Items::new(alloc);
    let mut place = Place { line: 1, column: 1 };
    let mut rest = bytes;
    loop {
        match at_front(rest) {
            Front::End => return Ok(Tokens::new(list, place)),
            Front::Bad => return Err(refused(Rule::S1, place)),
            Front::Skip(len) => {
                place = place_behind(place, &rest[..len]);
                rest = &rest[len..];
            }
            Front::Token(kind, len) => {
                let token = match cut(alloc, kind, &rest[..len], place, list.len()) {
                    Ok(token) => token,
                    Err(e) => return Err(e),
                };
                match list.push(token) {
                    Ok(()) => {}
                    Err(_) => return Err(FrontErr::NoMemory),
                }
                place = place_behind(place, &rest[..len]);
                rest = &rest[len..];
            }
        }
    }
}
