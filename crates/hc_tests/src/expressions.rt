//! The longest expression from a token on, which no job asks for alone.

use hc_exparse::parse_expr;
use hc_lex::{Tokens, lex};
use hc_tree::FrontErr;
use std::alloc::Global;
use std::test::Fail;

/// Tokens, each with the number behind the longest expression and the stop, or with the refusal. `#` ends a row.
const FRONTS: &str = "a + ;~>1 2#\
a ? b ;~>1 3#\
a * b + ( c + ;~>3 7#\
- a [ 1 ] ;~>5 5#\
( unsigned 4 ) a + (~>5 7#\
( a + b ;~>S2 at 1:9#\
~>S2 at 1:1";

/// The tokens of a short source.
fn tokens_of(alloc: Global, source: &str) -> Result<Tokens, Fail> {
    if 1_000_000 < source.len() {
        return Err(Fail::from("too long"));
    }
    match lex(alloc, source.as_bytes()) {
        Ok(tokens) => Ok(tokens),
        Err(_) => Err(Fail::from("no tokens")),
    }
}

fn front_shown(alloc: Global, source: &str) -> Result<String, Fail> {
    let tokens = tokens_of(alloc, source)?;
    match parse_expr(alloc, &tokens, 0) {
        Ok((_, next, stop)) => Ok(format!(in alloc; "{next} {stop}")?),
        Err(FrontErr::Refused(r)) => {
            Ok(format!(in alloc; "{:?} at {}:{}", r.rule, r.place.line, r.place.column)?)
        }
        Err(FrontErr::NoMemory) => Ok(String::new(alloc)),
    }
}

#[test]
fn longest_expressions(rt: HostRuntime) -> Result<(), Fail> {
    for row in FRONTS.split('#') {
        let (source, want) = row.split_once("~>").ok_or("no row")?;
        let found = front_shown(rt.alloc(), source)?;
        assert_eq!(rt; found.as_str(), want, "{source}");
    }
    Ok(())
}
