ghost use Rattle.std.specs.Prelude.{◌≡◌};
ghost use Rattle.hc_exparse.specs.Last.{Makes};
ghost use Rattle.hc_exparse.specs.Parts.{bits_part, choice_part, name_part, type_part};
ghost use Rattle.hc_grammar.specs.Kind as spec;

use crate::part::{NameTail, TypeHead};
use hc_grammar::Halt;
use hc_lex::Token;
use hc_tree::{BinaryOp, ExprTree, Ident, Place, Size, Type, UnaryOp};
use sqlite_items::Boxed;
use std::alloc::Global;

/// The value of a number.
#[tactic(auto, unfolding(hc_grammar::specs::Kind::number_of))]
pub(crate) fn number_of(token: &Token) -> u128
    ensures { result ≡ spec.number_of token.now }
{
    match token {
        Token::Number(value) => *value,
        Token::Word(_) => 0,
        Token::Text(_) => 0,
        Token::Mark(_) => 0,
    }
}

pub(crate) fn boxed(alloc: Global, tree: ExprTree) -> Result<Boxed<ExprTree>, Halt>
    ensures { Makes result tree }
{
    match Boxed::new(alloc, tree) {
        Ok(made) => Ok(made),
        Err(_) => Err(Halt::NoMemory),
    }
}

/// `width ( expr )`
pub(crate) fn width_of(alloc: Global, place: Place, of: ExprTree) -> Result<ExprTree, Halt>
    ensures { Makes result (ExprTree.Width place of) }
{
    match boxed(alloc, of) {
        Ok(of) => Ok(ExprTree::Width { place, of }),
        Err(_) => Err(Halt::NoMemory),
    }
}

/// `( type ) expr`
pub(crate) fn cast_of(alloc: Global, place: Place, to: Type, of: ExprTree) -> Result<ExprTree, Halt>
    ensures { Makes result (ExprTree.Cast place to of) }
{
    match boxed(alloc, of) {
        Ok(of) => Ok(ExprTree::Cast { place, to, of }),
        Err(_) => Err(Halt::NoMemory),
    }
}

/// An operator before its operand.
pub(crate) fn unary_of(
    alloc: Global,
    place: Place,
    op: UnaryOp,
    of: ExprTree,
) -> Result<ExprTree, Halt>
    ensures { Makes result (ExprTree.Unary place op of) }
{
    match boxed(alloc, of) {
        Ok(of) => Ok(ExprTree::Unary { place, op, of }),
        Err(_) => Err(Halt::NoMemory),
    }
}

/// `( expr )` as a width.
pub(crate) fn size_of(alloc: Global, width: ExprTree) -> Result<Size, Halt>
    ensures { Makes result (Size.Expr width) }
{
    match boxed(alloc, width) {
        Ok(width) => Ok(Size::Expr(width)),
        Err(_) => Err(Halt::NoMemory),
    }
}

/// An operator between two operands.
pub(crate) fn binary_of(
    alloc: Global,
    place: Place,
    left: ExprTree,
    op: BinaryOp,
    right: ExprTree,
) -> Result<ExprTree, Halt>
    ensures { Makes result (ExprTree.Binary place left op right) }
{
    match boxed(alloc, left) {
        Ok(left) => match boxed(alloc, right) {
            Ok(right) => Ok(ExprTree::Binary {
                place,
                left,
                op,
                right,
            }),
            Err(_) => Err(Halt::NoMemory),
        },
        Err(_) => Err(Halt::NoMemory),
    }
}

/// An index, or with a low end a bit range.
pub(crate) fn part_of(
    alloc: Global,
    place: Place,
    of: ExprTree,
    at: ExprTree,
    low: Option<ExprTree>,
) -> Result<ExprTree, Halt>
    ensures { Makes result (bits_part low place of at) }
{
    match boxed(alloc, of) {
        Ok(of) => match boxed(alloc, at) {
            Ok(at) => match low {
                Some(low) => match boxed(alloc, low) {
                    Ok(low) => Ok(ExprTree::Bits {
                        place,
                        of,
                        high: at,
                        low,
                    }),
                    Err(_) => Err(Halt::NoMemory),
                },
                None => Ok(ExprTree::Index { place, of, at }),
            },
            Err(_) => Err(Halt::NoMemory),
        },
        Err(_) => Err(Halt::NoMemory),
    }
}

/// A choice, or its condition alone.
pub(crate) fn chosen(
    alloc: Global,
    place: Place,
    condition: ExprTree,
    part: Option<(ExprTree, ExprTree)>,
) -> Result<ExprTree, Halt>
    ensures { Makes result (choice_part part place condition) }
{
    match part {
        Some((yes, no)) => choice_of(alloc, place, condition, yes, no),
        None => Ok(condition),
    }
}

/// `expr ? expr : expr`
fn choice_of(
    alloc: Global,
    place: Place,
    condition: ExprTree,
    yes: ExprTree,
    no: ExprTree,
) -> Result<ExprTree, Halt>
    ensures { Makes result (ExprTree.Choice place condition yes no) }
{
    match boxed(alloc, condition) {
        Ok(condition) => match boxed(alloc, yes) {
            Ok(yes) => match boxed(alloc, no) {
                Ok(no) => Ok(ExprTree::Choice {
                    place,
                    condition,
                    yes,
                    no,
                }),
                Err(_) => Err(Halt::NoMemory),
            },
            Err(_) => Err(Halt::NoMemory),
        },
        Err(_) => Err(Halt::NoMemory),
    }
}

/// What a name and what stands behind it are.
pub(crate) fn named(name: Ident, tail: NameTail) -> ExprTree
    ensures { result ≡ name_part tail name }
{
    match tail {
        NameTail::Alone => ExprTree::Name(name),
        NameTail::Call(arguments) => ExprTree::Call { name, arguments },
        NameTail::Port(port) => ExprTree::Port {
            interface: name,
            port,
        },
    }
}

/// The type of these words and this size.
pub(crate) fn typed(place: Place, head: TypeHead, size: Size) -> Type
    ensures { result ≡ type_part head place size }
{
    match head {
        TypeHead::Unsigned(is_int) => Type::Unsigned {
            place,
            is_int,
            size,
        },
        TypeHead::Int(is_signed) => Type::Int {
            place,
            is_signed,
            size,
        },
        TypeHead::Signed => Type::Signed { place, size },
    }
}

/// `select ( expr , expr , expr )`
pub(crate) fn select_of(
    alloc: Global,
    place: Place,
    condition: ExprTree,
    yes: ExprTree,
    no: ExprTree,
) -> Result<ExprTree, Halt>
    ensures { Makes result (ExprTree.Select place condition yes no) }
{
    match boxed(alloc, condition) {
        Ok(condition) => match boxed(alloc, yes) {
            Ok(yes) => match boxed(alloc, no) {
                Ok(no) => Ok(ExprTree::Select {
                    place,
                    condition,
                    yes,
                    no,
                }),
                Err(_) => Err(Halt::NoMemory),
            },
            Err(_) => Err(Halt::NoMemory),
        },
        Err(_) => Err(Halt::NoMemory),
    }
}
