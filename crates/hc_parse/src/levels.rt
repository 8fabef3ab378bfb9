ghost use Rattle.std.specs.Prelude.{◌≡◌, ◌≤◌, ◌<◌, ◌^◌, IfOk, option_map, is_some, true};
ghost use Rattle.hc_grammar.specs.Nesting as spec;
ghost use Rattle.hc_grammar.specs.Nesting.{nesting, file};
ghost use Rattle.hc_parse.specs.Stack.{bracket_of, role_of, opened_of, innermost};

use crate::open::{OpenBrackets, Opened};
use crate::role::{Bracket, Role, is_end, is_step};
use hc_tree::NoMemory;
use std::alloc::Global;
use std::marker::Model;

/// An open level within the file: what opened it, and the count of the level around it.
#[derive(Clone, Copy, Debug)]
struct Level {
    opened: Opened,
    around: usize,
}

/// The open levels: those within the file, the innermost last, and the count of the innermost. Beside them stand their
/// nesting and how many brackets of each kind are open.
#[derive(Drop)]
pub(crate) struct Levels {
    stack: Vec<Level>,
    count: usize,
    depth: usize,
    brackets: OpenBrackets,
}

impl Model for Levels {
    ghost use Rattle.hc_grammar.specs.Nesting.{Levels};
    ghost use Rattle.hc_parse.specs.Stack.{stacked, Counts, levels_code};

    ghost Value = { Levels };

    ghost coded = { levels_code };

    ghost view = { λ l. stacked l.stack.items l.count };

    ghost invariant = { λ l. Counts (stacked l.stack.items l.count) l.depth l.brackets };
}

impl Levels {
    /// The file alone.
    pub(crate) fn new(alloc: Global) -> Levels
        ensures { result ≡ file 0 }
    {
        Levels {
            stack: Vec::new(alloc),
            count: 0,
            depth: 0,
            brackets: OpenBrackets::none(),
        }
    }

    /// The sum of the counts of all levels, and 1 for each level within the file.
    pub(crate) fn nesting(&self) -> usize
        ensures { result ≡ nesting self.now }
    {
        self.depth
    }

    /// Opens a level within the innermost.
    fn open(&mut self, opened: Opened) -> Result<(), NoMemory>
        requires { nesting self.old ≤ 2 ^ 32 }
        ensures { IfOk result (λ _. self.new ≡ spec.opened (opened_of opened) self.old) }
    {
        let around = self.count;
        match self.stack.push(Level { opened, around }) {
            Ok(()) => {}
            Err(_) => return Err(NoMemory),
        }
        self.count = 0;
        self.depth += 1;
        self.brackets = self.brackets.with(opened);
        Ok(())
    }

    /// Counts a step token at the innermost level.
    fn count(&mut self)
        requires { nesting self.old ≤ 2 ^ 32 }
        ensures { self.new ≡ spec.counted self.old }
    {
        self.count += 1;
        self.depth += 1;
    }

    /// Starts the count of the innermost level again.
    fn restart(&mut self)
        ensures { self.new ≡ spec.restarted self.old }
    {
        self.depth -= self.count;
        self.count = 0;
    }

    /// Closes the innermost level, and says what opened it; the file stays.
    fn leave(&mut self) -> Option<Opened>
        ensures levels { self.new ≡ spec.left self.old }
        ensures opened { option_map opened_of result ≡ innermost self.old }
    {
        match self.stack.pop() {
            None => None,
            Some(level) => {
                self.depth -= self.count + 1;
                self.count = level.around;
                self.brackets = self.brackets.without(level.opened);
                Some(level.opened)
            }
        }
    }

    /// Whether a bracket of a kind is open.
    fn has_open(&self, bracket: Bracket) -> bool
        ensures { result ≡ is_some (spec.around (bracket_of bracket) self.now) }
    {
        0 < self.brackets.number(bracket)
    }

    /// Closes the innermost open bracket of a kind with all levels within it.
    fn close(&mut self, bracket: Bracket)
        requires { is_some (spec.around (bracket_of bracket) self.old) ≡ true }
        ensures { self.new ≡ spec.kept self.old (spec.around (bracket_of bracket) self.old) }
    {
        while let Some(opened) = self.leave() {
            if opened.is_by(bracket) {
                return;
            }
        }
    }

    /// Starts the count of the innermost level again, unless `else` is next.
    fn end(&mut self, next: Role)
        ensures { self.new ≡ spec.ended (role_of next) self.old }
    {
        match next {
            Role::Else => {}
            Role::Opens(_)
            | Role::Closes(_)
            | Role::Comma
            | Role::Semicolon
            | Role::Do
            | Role::While
            | Role::Type
            | Role::Step
            | Role::Plain => self.restart(),
        }
    }

    /// What a `}` does at the level around its own, and other brackets don't.
    fn end_behind(&mut self, bracket: Bracket, next: Role)
        ensures { self.new ≡ spec.behind (bracket_of bracket) (role_of next) self.old }
    {
        match bracket {
            Bracket::Curly => self.end(next),
            Bracket::Round | Bracket::Square => {}
        }
    }

    /// Opens the level of a bracket, which may be a step token at the level around it.
    fn open_bracket(&mut self, before: Role, bracket: Bracket, next: Role) -> Result<(), NoMemory>
        requires { nesting self.old < 2 ^ 32 }
        ensures { IfOk result (λ _. self.new ≡ spec.taken (role_of before) (spec.Opens (bracket_of bracket)) (role_of next) self.old) }
    {
        if is_step(before, bracket, next) {
            self.count();
        }
        self.open(Opened::By(bracket))
    }

    /// Closes the innermost open bracket of a kind, if there is one.
    fn close_bracket(&mut self, bracket: Bracket, next: Role)
        ensures { self.new ≡ spec.kept self.old (option_map (spec.behind (bracket_of bracket) (role_of next)) (spec.around (bracket_of bracket) self.old)) }
    {
        if self.has_open(bracket) {
            self.close(bracket);
            self.end_behind(bracket, next);
        }
    }

    /// Whether the innermost level is that of a `do`.
    fn is_at_do(&self) -> bool
        ensures { result ≡ spec.is_at_do self.now }
    {
        match self.stack.last() {
            None => false,
            Some(level) => level.opened.is_do(),
        }
    }

    /// What a `while` does: directly behind an end at the level of a `do` it closes that level, else it is a step token.
    fn take_while(&mut self, before: Role)
        requires { nesting self.old ≤ 2 ^ 32 }
        ensures { self.new ≡ spec.at_while (role_of before) self.old }
    {
        if is_end(before) && self.is_at_do() {
            self.leave();
        } else {
            self.count();
        }
    }

    /// What a token does to the levels, by its role and those of the tokens before and behind it.
    pub(crate) fn take(&mut self, before: Role, role: Role, next: Role) -> Result<(), NoMemory>
        requires { nesting self.old < 2 ^ 32 }
        ensures { IfOk result (λ _. self.new ≡ spec.taken (role_of before) (role_of role) (role_of next) self.old) }
    {
        match role {
            Role::Opens(bracket) => return self.open_bracket(before, bracket, next),
            Role::Closes(bracket) => self.close_bracket(bracket, next),
            Role::Comma => self.restart(),
            Role::Semicolon => self.end(next),
            Role::Do => return self.open(Opened::Do),
            Role::While => self.take_while(before),
            Role::Step => self.count(),
            Role::Else | Role::Type | Role::Plain => {}
        }
        Ok(())
    }
}
