ghost use Rattle.std.specs.Prelude.{◌≡◌};

use crate::mark::Mark;
use hc_tree::{Name, Place};
use sqlite_items::Items;
use std::marker::Model;

/// A token. A text has the bytes between its quotes.
#[derive(Debug, Drop)]
pub enum Token {
    Word(Name),
    Number(u128),
    Text(Name),
    Mark(Mark),
}

/// A token and the place of its first byte.
#[derive(Debug, Drop)]
pub struct Placed {
    pub token: Token,
    pub place: Place,
}

/// The tokens of a source in order, and the place behind its last byte.
#[derive(Debug, Drop)]
pub struct Tokens {
    list: Items<Placed>,
    end: Place,
}

impl Model for Tokens {
    ghost use Rattle.hc_lex.specs.TokenList.{TokenList};

    ghost Value = { TokenList };

    ghost view = { λ t. record { tokens = t.list; end = t.end } };
}

impl Tokens {
    /// These tokens with this place of the end.
    pub(crate) fn new(list: Items<Placed>, end: Place) -> Tokens
        ensures { result ≡ record { tokens = list; end = end } }
    {
        Tokens { list, end }
    }

    /// The tokens in order.
    pub fn as_slice(&self) -> &[Placed]
        ensures { result.now ≡ self.now.tokens }
    {
        self.list.as_slice()
    }

    /// The place behind the last byte of the source.
    pub fn end(&self) -> Place
        ensures { result ≡ self.now.end }
    {
        self.end
    }
}
