ghost use Rattle.std.specs.Prelude.{◌≡◌, length};
ghost use Rattle.hc_lex.specs.Place as spec;
ghost use Rattle.hc_lex.specs.Place.{HasRoom, IsBehind};

use hc_tree::Place;

fn next_place(b: u8, at: Place) -> Place
    requires { HasRoom at 1 }
    ensures value { result ≡ spec.next_place b at }
    ensures room { IsBehind at result 1 }
{
    if b == b'\n' {
        Place {
            line: at.line + 1,
            column: 1,
        }
    } else {
        Place {
            line: at.line,
            column: at.column + 1,
        }
    }
}

/// The place behind bytes that begin at a place.
pub(crate) fn place_behind(at: Place, bytes: &[u8]) -> Place
    requires { HasRoom at (length bytes.now) }
    ensures value { result ≡ spec.place_behind at bytes.now }
    ensures room { IsBehind at result (length bytes.now) }
{
    let mut place = at;
    let mut rest = bytes;
    while let [b, behind @ ..] = rest {
        place = next_place(*b, place);
        rest = behind;
    }
    place
}
