ghost use Rattle.std.specs.Prelude.{◌≡◌, ◌≢◌, true, false, Some, ◌∷◌, ◌≤◌, ◌-◌, ◌+◌, [], take, drop, length, option_map};
ghost use Rattle.hc_grammar.specs.Cursor.{MarkRead, place_at};
ghost use Rattle.hc_grammar.specs.Kind as spec;
ghost use Rattle.hc_grammar.specs.Table.{front};

use crate::halt::Halt;
use crate::kind::{Kind, token_kind};
use crate::order::number;
use hc_lex::{Placed, Tokens};
use hc_tree::Place;
use std::marker::Model;

/// The tokens of a source from the next one on. What the next token is to the grammar is worked out once.
#[derive(Drop)]
pub struct Cursor<'a> {
    rest: &'a [Placed],
    kind: Option<Kind>,
    end: Place,
}

impl<'a> Model for Cursor<'a> {
    ghost use Rattle.std.specs.Prelude.{◌≡◌, option_map};
    ghost use Rattle.hc_grammar.specs.Cursor.{Ahead};
    ghost use Rattle.hc_grammar.specs.Table.{front};
    ghost use Rattle.hc_grammar.specs.Kind as of;

    ghost Value = { Ahead };

    ghost view = { λ c. record { rest = c.rest.now; end = c.end } };

    ghost invariant = { λ c. c.kind ≡ option_map of.kind (front c.rest.now) };
}

/// What the token at the front is to the grammar.
#[tactic(auto, unfolding(crate::specs::Kind::kind))]
fn front_kind(tokens: &[Placed]) -> Option<Kind>
    ensures { result ≡ option_map spec.kind (front tokens.now) }
{
    match tokens {
        [first, ..] => Some(token_kind(&first.token)),
        [] => None,
    }
}

impl<'a> Cursor<'a> {
    /// The tokens from number `from` on, counted from 0.
    pub fn new(tokens: &'a Tokens, from: usize) -> Cursor<'a>
        requires { from ≤ length tokens.now.tokens }
        ensures { result ≡ record { rest = drop from tokens.now.tokens; end = tokens.now.end } }
    {
        let (_, rest) = tokens.as_slice().split_at(from);
        Cursor {
            rest,
            kind: front_kind(rest),
            end: tokens.end(),
        }
    }

    /// The first `count` tokens from number `from` on.
    pub fn front(tokens: &'a Tokens, from: usize, count: usize) -> Cursor<'a>
        requires { from + count ≤ length tokens.now.tokens }
        ensures { result ≡ record { rest = take count (drop from tokens.now.tokens); end = tokens.now.end } }
    {
        let (_, rest) = tokens.as_slice().split_at(from);
        let (rest, _) = rest.split_at(count);
        Cursor {
            rest,
            kind: front_kind(rest),
            end: tokens.end(),
        }
    }

    /// How many tokens are left.
    pub fn len(&self) -> usize
        ensures { result ≡ length self.now.rest }
    {
        self.rest.len()
    }

    /// What the next token is to the grammar, or None at the end.
    pub fn kind(&self) -> Option<Kind>
        ensures { result ≡ option_map spec.kind (front self.now.rest) }
    {
        self.kind
    }

    /// The place of the next token, or of the end.
    pub fn place(&self) -> Place
        ensures { result ≡ place_at self.now }
    {
        match self.rest {
            [first, ..] => first.place,
            [] => self.end,
        }
    }

    /// Whether the next token is of this kind.
    pub fn is(&self, kind: Kind) -> bool
        ensures yes { result ≡ true → option_map spec.kind (front self.now.rest) ≡ Some kind }
        ensures no { result ≡ false → option_map spec.kind (front self.now.rest) ≢ Some kind }
    {
        match self.kind {
            Some(next) => number(next) == number(kind),
            None => false,
        }
    }

    /// Takes the next token.
    pub fn take(&mut self) -> Option<&'a Placed>
        ensures end { result ≡ None → (self.old.rest ≡ []) × (self.new ≡ self.old) }
        ensures token { (t : _) → result ≡ Some t → (self.old.rest ≡ t.now ∷ self.new.rest) × (self.new.end ≡ self.old.end) }
    {
        match self.rest {
            [first, rest @ ..] => {
                self.rest = rest;
                self.kind = front_kind(rest);
                Some(first)
            }
            [] => None,
        }
    }

    /// Takes the next token where it is of this kind.
    pub fn expect(&mut self, kind: Kind) -> Result<(), Halt>
        ensures { MarkRead kind self.old self.new result }
    {
        if self.is(kind) {
            self.take();
            Ok(())
        } else {
            Err(Halt::Refused(None))
        }
    }
}
