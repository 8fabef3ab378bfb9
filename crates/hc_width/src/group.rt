ghost use Rattle.std.specs.Prelude.{◌≡◌};
ghost use Rattle.hc_core.specs.Typed.{group_of};
ghost use Rattle.hc_width.specs.Groups.{group_named};

use hc_core::BinOp;

/// Operators between two operands that follow one rule.
#[derive(Clone, Copy, Debug, PartialEq, Eq)]
pub(crate) enum Group {
    Arithmetic,
    Division,
    Bitwise,
    Comparison,
    Shifting,
    Joining,
    Taking,
    Dropping,
    Logic,
}

// The group of an operator.
pub(crate) fn group_of(op: BinOp) -> Group
    ensures { group_named result ≡ group_of op }
{
    match op {
        BinOp::Add | BinOp::Sub | BinOp::Mul => Group::Arithmetic,
        BinOp::Div | BinOp::Rem => Group::Division,
        BinOp::And | BinOp::Or | BinOp::Xor => Group::Bitwise,
        BinOp::Eq | BinOp::Ne | BinOp::Lt | BinOp::Le | BinOp::Gt | BinOp::Ge => Group::Comparison,
        BinOp::Shl | BinOp::Shr => Group::Shifting,
        BinOp::Concat => Group::Joining,
        BinOp::Take => Group::Taking,
        BinOp::Drop => Group::Dropping,
        BinOp::Both | BinOp::Either => Group::Logic,
    }
}
