//! The values of variables and constants, and comparisons.
ghost use Rattle.std.specs.Prelude.{◌≡◌};
ghost use Rattle.sn_refs.specs.Reference.{IsReached};
ghost use Rattle.sn_walk.specs.Condition.{assigned as assigned_to, value_of as has_value, compares as compares_so, compares_given};

use crate::node::{Comparison, Node, node_at};
use sn_refs::Checked;
use sn_words::Assign;

/// The value that is assigned to a name, in thousandths, if one is.
fn assigned(sets: &[Assign], name: &[u8]) -> Option<i32>
    ensures { result ≡ assigned_to sets.now name.now }
{
    for set in sets {
        if set.name.as_slice() == name {
            return Some(set.value);
        }
    }
    None
}

/// The value of a variable or a constant, in thousandths, if it has one.
pub(crate) fn value_of(c: &Checked, sets: &[Assign], n: u32) -> Option<i32>
    requires { IsReached c.now n }
    ensures { result ≡ has_value c.now sets.now n }
{
    let fields = c.fields(n);
    match node_at(c, n) {
        Node::Variable => assigned(sets, fields.text(0)).or(fields.num(1)),
        Node::Constant => fields.num(0),
        _ => None,
    }
}

/// Whether the comparison of two values holds.
fn compares(comparison: Comparison, a: i32, b: i32) -> bool
    ensures { result ≡ compares_so comparison a b }
{
    match comparison {
        Comparison::Equal => a == b,
        Comparison::NotEqual => a != b,
        Comparison::Less => a < b,
        Comparison::LessOrEqual => a <= b,
        Comparison::Greater => a > b,
        Comparison::GreaterOrEqual => a >= b,
    }
}

/// Whether the comparison of two variables or constants holds; not where one has no value.
pub(crate) fn compares_values(
    c: &Checked,
    sets: &[Assign],
    comparison: Comparison,
    a: u32,
    b: u32,
) -> bool
    requires left { IsReached c.now a }
    requires right { IsReached c.now b }
    ensures { result ≡ compares_given comparison (has_value c.now sets.now a) (has_value c.now sets.now b) }
{
    match (value_of(c, sets, a), value_of(c, sets, b)) {
        (Some(left), Some(right)) => compares(comparison, left, right),
        _ => false,
    }
}
