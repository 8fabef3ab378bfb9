ghost use Rattle.std.specs.Prelude.{◌≡◌};
ghost use Rattle.hc_exparse.specs.Last.{Makes};

use hc_grammar::Halt;
use hc_tree::{Condition, ExprTree, Place, Stmt};
use sqlite_items::Boxed;
use std::alloc::Global;

pub(crate) fn boxed(alloc: Global, part: Stmt) -> Result<Boxed<Stmt>, Halt>
    ensures { Makes result part }
{
    match Boxed::new(alloc, part) {
        Ok(made) => Ok(made),
        Err(_) => Err(Halt::NoMemory),
    }
}

/// A statement that may be absent, in a box of its own.
fn opt_boxed(alloc: Global, part: Option<Stmt>) -> Result<Option<Boxed<Stmt>>, Halt>
    ensures { Makes result part }
{
    match part {
        Some(part) => match boxed(alloc, part) {
            Ok(made) => Ok(Some(made)),
            Err(_) => Err(Halt::NoMemory),
        },
        None => Ok(None),
    }
}

/// `( if | ifselect ) ( expr ) stmt [ else stmt ]`
pub(crate) fn if_of(
    alloc: Global,
    place: Place,
    word: Condition,
    condition: ExprTree,
    yes: Stmt,
    no: Option<Stmt>,
) -> Result<Stmt, Halt>
    ensures { Makes result (Stmt.If place word condition yes no) }
{
    match boxed(alloc, yes) {
        Ok(yes) => match opt_boxed(alloc, no) {
            Ok(no) => Ok(Stmt::If {
                place,
                word,
                condition,
                yes,
                no,
            }),
            Err(_) => {
                drop(yes);
                drop(condition);
                Err(Halt::NoMemory)
            }
        },
        Err(_) => {
            drop(no);
            drop(condition);
            Err(Halt::NoMemory)
        }
    }
}

/// `while ( expr ) stmt`
pub(crate) fn while_of(
    alloc: Global,
    place: Place,
    condition: ExprTree,
    body: Stmt,
) -> Result<Stmt, Halt>
    ensures { Makes result (Stmt.While place condition body) }
{
    match boxed(alloc, body) {
        Ok(body) => Ok(Stmt::While {
            place,
            condition,
            body,
        }),
        Err(_) => {
            drop(condition);
            Err(Halt::NoMemory)
        }
    }
}

/// `do stmt while ( expr ) ;`
pub(crate) fn do_of(
    alloc: Global,
    place: Place,
    body: Stmt,
    condition: ExprTree,
) -> Result<Stmt, Halt>
    ensures { Makes result (Stmt.DoWhile place body condition) }
{
    match boxed(alloc, body) {
        Ok(body) => Ok(Stmt::DoWhile {
            place,
            body,
            condition,
        }),
        Err(_) => {
            drop(condition);
            Err(Halt::NoMemory)
        }
    }
}
