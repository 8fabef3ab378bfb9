ghost use Rattle.std.specs.Prelude.{◌≡◌, ◌≤◌, ◌+◌, ◌^◌, if◌then◌else◌};
ghost use Rattle.hc_grammar.specs.Nesting as spec;
ghost use Rattle.hc_grammar.specs.Nesting.{Bracket as Kind};
ghost use Rattle.hc_parse.specs.Stack.{bracket_of, opened_of, number_of};

use crate::role::Bracket;

/// What opens a level within the file.
#[derive(Clone, Copy, Debug)]
pub(crate) enum Opened {
    By(Bracket),
    Do,
}

/// How many brackets of each kind are open.
#[derive(Clone, Copy, Debug)]
pub(crate) struct OpenBrackets {
    round: usize,
    square: usize,
    curly: usize,
}

impl Opened {
    pub(crate) fn is_do(self) -> bool
        ensures { result ≡ spec.is_do (opened_of self) }
    {
        match self {
            Opened::Do => true,
            Opened::By(_) => false,
        }
    }

    /// Whether a bracket of this kind opened the level.
    pub(crate) fn is_by(self, bracket: Bracket) -> bool
        ensures { result ≡ spec.is_by (bracket_of bracket) (opened_of self) }
    {
        match self {
            Opened::By(Bracket::Round) => matches!(bracket, Bracket::Round),
            Opened::By(Bracket::Square) => matches!(bracket, Bracket::Square),
            Opened::By(Bracket::Curly) => matches!(bracket, Bracket::Curly),
            Opened::Do => false,
        }
    }
}

impl OpenBrackets {
    pub(crate) fn none() -> OpenBrackets
        ensures { result ≡ record { round = 0; square = 0; curly = 0 } }
    {
        OpenBrackets {
            round: 0,
            square: 0,
            curly: 0,
        }
    }

    /// How many of this kind are open.
    pub(crate) fn number(self, bracket: Bracket) -> usize
        ensures { result ≡ number_of (bracket_of bracket) self }
    {
        match bracket {
            Bracket::Round => self.round,
            Bracket::Square => self.square,
            Bracket::Curly => self.curly,
        }
    }

    /// The numbers when one more level is open.
    pub(crate) fn with(self, opened: Opened) -> OpenBrackets
        requires { (k : Kind) → number_of k self ≤ 2 ^ 32 }
        ensures { (k : Kind) → number_of k result ≡ (if spec.is_by k (opened_of opened) then 1 else 0) + number_of k self }
    {
        let mut open = self;
        match opened {
            Opened::By(Bracket::Round) => open.round += 1,
            Opened::By(Bracket::Square) => open.square += 1,
            Opened::By(Bracket::Curly) => open.curly += 1,
            Opened::Do => {}
        }
        open
    }

    /// The numbers when that level is closed.
    pub(crate) fn without(self, opened: Opened) -> OpenBrackets
        requires { (k : Kind) → (if spec.is_by k (opened_of opened) then 1 else 0) ≤ number_of k self }
        ensures { (k : Kind) → (if spec.is_by k (opened_of opened) then 1 else 0) + number_of k result ≡ number_of k self }
    {
        let mut open = self;
        match opened {
            Opened::By(Bracket::Round) => open.round -= 1,
            Opened::By(Bracket::Square) => open.square -= 1,
            Opened::By(Bracket::Curly) => open.curly -= 1,
            Opened::Do => {}
        }
        open
    }
}
