ghost use Rattle.std.specs.Prelude.{◌≡◌, ◌+◌, ◌<◌, length, take};
ghost use Rattle.hc_scope.specs.Marks.{mark_of};
ghost use Rattle.hc_scope.specs.Scope.{opened, find, is_declared};
ghost use Rattle.hc_scope.specs.Expression.{bound};
ghost use Rattle.hc_scope.specs.Reading.{scope_of, declared_of, meaning_of, Finds};
ghost use Rattle.hc_scope.specs.Places.{IsBound};

use crate::marked::mark;
use crate::names::{Names, find_among, is_marked};
use hc_tree::{Block, ExprTree, Ident};
use hc_width::Whole;

/// What a declared name stands for.
#[derive(Clone, Copy)]
pub enum Declared<'t> {
    /// An object, by its number.
    Object(u32),
    /// An input or output, with the name of its port.
    Interface(u32, &'t Ident),
    /// A macro expression, with its parameters.
    Expression(&'t [Ident], &'t ExprTree),
    /// A macro procedure, with its parameters.
    Procedure(&'t [Ident], &'t Block),
}

/// A scope: a chain of declarations, the innermost first.
#[cycle(scope)]
#[derive(Clone, Copy)]
pub enum Scope<'s, 't> {
    /// Outside of all declarations.
    Outside,
    /// The first so many names of a scope, and the scope around it.
    Declares(&'s Names<'t>, usize, &'s Scope<'s, 't>),
    /// A replicator's variable with its number, and the scope around it.
    Turn(&'t Ident, &'s Whole, &'s Scope<'s, 't>),
    /// A macro's parameters, their arguments, the scope of the call, and the scope of the macro.
    Binds(&'t [Ident], &'t [ExprTree], &'s Scope<'s, 't>, &'s Scope<'s, 't>),
}

/// What a name stands for.
#[derive(Clone, Copy)]
pub enum Meaning<'s, 't> {
    /// An object, by its number.
    Object(u32),
    /// An input or output, with the name of its port.
    Interface(u32, &'t Ident),
    /// A replicator's variable.
    Number(&'s Whole),
    /// A macro expression, with its parameters.
    Expression(&'t [Ident], &'t ExprTree),
    /// A macro procedure, with its parameters.
    Procedure(&'t [Ident], &'t Block),
    /// A parameter's argument, with the scope of the call.
    Argument(&'t ExprTree, &'s Scope<'s, 't>),
}

/// A name's meaning, and the chain from its declaration on.
#[derive(Clone, Copy)]
pub struct Found<'s, 't> {
    /// The meaning.
    pub meaning: Meaning<'s, 't>,
    /// The chain whose innermost declaration is that of the name.
    pub scope: Scope<'s, 't>,
}

/// What stands in the place of a target or a channel, where a parameter stands for its argument.
#[derive(Clone, Copy)]
pub enum Named<'s, 't> {
    /// This name isn't declared.
    Missing(&'t Ident),
    /// This parameter's argument is no name, or this name has an index twice.
    NoName(&'t Ident),
    /// A name with its meaning, and the index that an argument gave it with the scope of that index.
    Known(&'t Ident, Meaning<'s, 't>, Option<(&'t ExprTree, &'s Scope<'s, 't>)>),
}

/// What a name stands for, or None where it isn't declared. The chain is as long as scopes are nested in the text, which L3
/// bounds.
pub fn find<'s, 't>(scope: &Scope<'s, 't>, name: &[u8]) -> Option<Found<'s, 't>>
    ensures { Finds (find name.now (scope_of scope.now)) result }
{
    let mark = mark(name);
    find_marked(passed(scope, name, mark), name, mark)
}

// The chain from the innermost scope on that has a name with this mark, or from the outside: the name stands for the same in
// it. Most scopes that don't have the name are passed over by one bit.
fn passed<'a, 's, 't>(scope: &'a Scope<'s, 't>, name: &[u8], mark: u32) -> &'a Scope<'s, 't>
    requires mark { mark ≡ mark_of name.now }
    requires small { mark < 64 }
    ensures { find name.now (scope_of result.now) ≡ find name.now (scope_of scope.now) }
{
    match scope {
        Scope::Outside => scope,
        Scope::Declares(names, seen, around) => {
            if is_marked(names, mark) {
                match find_among(names, *seen, name, mark) {
                    Some(_found) => scope,
                    None => passed(around, name, mark),
                }
            } else {
                passed(around, name, mark)
            }
        }
        Scope::Turn(x, _number, around) => {
            if x.name.as_bytes() == name {
                scope
            } else {
                passed(around, name, mark)
            }
        }
        Scope::Binds(parameters, arguments, _call, around) => {
            match find_bound(parameters, arguments, name) {
                Some(_at) => scope,
                None => passed(around, name, mark),
            }
        }
    }
}

// What a name with this mark stands for.
fn find_marked<'s, 't>(scope: &Scope<'s, 't>, name: &[u8], mark: u32) -> Option<Found<'s, 't>>
    requires mark { mark ≡ mark_of name.now }
    requires small { mark < 64 }
    ensures { Finds (find name.now (scope_of scope.now)) result }
{
    match scope {
        Scope::Outside => None,
        Scope::Declares(names, seen, around) => match find_among(names, *seen, name, mark) {
            Some((at, declared)) => Some(Found {
                meaning: meant(declared),
                scope: Scope::Declares(names, at + 1, around),
            }),
            None => find_marked(around, name, mark),
        },
        Scope::Turn(x, number, around) => {
            if x.name.as_bytes() == name {
                Some(Found {
                    meaning: Meaning::Number(number),
                    scope: Scope::Turn(x, number, around),
                })
            } else {
                find_marked(around, name, mark)
            }
        }
        Scope::Binds(parameters, arguments, call, around) => {
            match find_bound(parameters, arguments, name) {
                Some(at) => Some(Found {
                    meaning: Meaning::Argument(&arguments[at], call),
                    scope: binds_up_to(parameters, arguments, at, call, around),
                }),
                None => find_marked(around, name, mark),
            }
        }
    }
}

// The scope that ends in the parameter at this index.
fn binds_up_to<'s, 't>(
    parameters: &'t [Ident],
    arguments: &'t [ExprTree],
    at: usize,
    call: &'s Scope<'s, 't>,
    around: &'s Scope<'s, 't>,
) -> Scope<'s, 't>
    requires { at < length parameters.now }
    ensures { scope_of result ≡ bound (scope_of call.now) (take (at + 1) parameters.now) arguments.now (opened (scope_of around.now)) }
{
    Scope::Binds(&parameters[..at + 1], arguments, call, around)
}

/// Whether a name is declared in the innermost scope of a chain.
pub(crate) fn is_declared(scope: &Scope<'_, '_>, name: &[u8]) -> bool
    ensures { result ≡ is_declared name.now (scope_of scope.now) }
{
    match scope {
        Scope::Outside => false,
        Scope::Declares(names, seen, _around) => match find_among(names, *seen, name, mark(name)) {
            Some(_found) => true,
            None => false,
        },
        Scope::Turn(x, _number, _around) => x.name.as_bytes() == name,
        Scope::Binds(parameters, arguments, _call, _around) => {
            match find_bound(parameters, arguments, name) {
                Some(_at) => true,
                None => false,
            }
        }
    }
}

// What a declared name stands for, as a name's meaning.
fn meant<'s, 't>(declared: Declared<'t>) -> Meaning<'s, 't>
    ensures { meaning_of result ≡ declared_of declared.entry }
{
    match declared {
        Declared::Object(k) => Meaning::Object(k),
        Declared::Interface(k, port) => Meaning::Interface(k, port),
        Declared::Expression(parameters, body) => Meaning::Expression(parameters, body),
        Declared::Procedure(parameters, body) => Meaning::Procedure(parameters, body),
    }
}

/// The last parameter that has this name, among those that have an argument.
pub(crate) fn find_bound(parameters: &[Ident], arguments: &[ExprTree], name: &[u8]) -> Option<usize>
    ensures { IsBound name.now parameters.now arguments.now result }
{
    let mut last = None;
    for at in 0..parameters.len().min(arguments.len()) {
        if parameters[at].name.as_bytes() == name {
            last = Some(at);
        }
    }
    last
}
