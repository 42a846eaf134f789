//! What an instance is to the walk.
ghost use Rattle.std.specs.Prelude.{◌≡◌};
ghost use Rattle.sn_refs.specs.Reference.{IsReached};
ghost use Rattle.sn_walk.specs.Node.{node_of};

use sn_entity::RowId;
use sn_refs::Checked;

/// How two values are compared.
#[derive(Clone, Copy, Debug, PartialEq, Eq)]
pub enum Comparison {
    Equal,
    NotEqual,
    Less,
    LessOrEqual,
    Greater,
    GreaterOrEqual,
}

/// What an instance is to the walk. The elements of a workplan and the operands of `and` and `or` are its list.
#[derive(Clone, Copy, Debug, PartialEq, Eq)]
pub enum Node {
    /// A workplan.
    Sequence,
    /// An if: its condition, its true branch, and its false branch, which may be missing.
    Choice(u32, u32, Option<u32>),
    /// A machining workingstep.
    Step,
    /// `and`.
    AllOf,
    /// `or`.
    AnyOf,
    /// `xor` of two conditions.
    OneOf(u32, u32),
    /// `not`.
    Opposite(u32),
    /// A comparison of two values.
    Compared(Comparison, u32, u32),
    Variable,
    Constant,
    /// Nothing that is visited.
    Other,
}

/// What a reached instance is to the walk.
pub(crate) fn node_at(c: &Checked, n: u32) -> Node
    requires { IsReached c.now n }
    ensures { result ≡ node_of c.now n }
{
    match c.fields(n).row {
        RowId::Workplan => Node::Sequence,
        RowId::IfStatement => Node::Choice(c.one(n, 0), c.one(n, 1), c.maybe_one(n, 2)),
        RowId::MachiningWorkingstep => Node::Step,
        RowId::AndExpression => Node::AllOf,
        RowId::OrExpression => Node::AnyOf,
        RowId::XorExpression => Node::OneOf(c.one(n, 0), c.one(n, 1)),
        RowId::NotExpression => Node::Opposite(c.one(n, 0)),
        RowId::ComparisonEqual => Node::Compared(Comparison::Equal, c.one(n, 0), c.one(n, 1)),
        RowId::ComparisonNotEqual => Node::Compared(Comparison::NotEqual, c.one(n, 0), c.one(n, 1)),
        RowId::ComparisonLess => Node::Compared(Comparison::Less, c.one(n, 0), c.one(n, 1)),
        RowId::ComparisonLessEqual => Node::Compared(
            Comparison::LessOrEqual,
            c.one(n, 0),
            c.one(n, 1),
        ),
        RowId::ComparisonGreater => Node::Compared(Comparison::Greater, c.one(n, 0), c.one(n, 1)),
        RowId::ComparisonGreaterEqual => Node::Compared(
            Comparison::GreaterOrEqual,
            c.one(n, 0),
            c.one(n, 1),
        ),
        RowId::NcVariable => Node::Variable,
        RowId::NcConstant => Node::Constant,
        _ => Node::Other,
    }
}
