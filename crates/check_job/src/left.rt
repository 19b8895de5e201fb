// What is left of a parent while its children are taken off, the newest first: the sum of two numbers, which 64 bits may not hold.
ghost use Rattle.std.specs.Prelude.{◌≡◌, eqb};
ghost use Rattle.jobs.specs.Job.{kind_of, node_of};
ghost use Rattle.stored.specs.Walk as rule;

use jobs::{Kind, Node};

// All of a parent.
pub(crate) fn whole(x: Node) -> u128
    ensures { result ≡ rule.whole (kind_of x.kind) (node_of x) }
{
    match x.kind {
        Kind::Segment => 0,
        Kind::Concat => u128::from(x.at) + u128::from(x.rows),
        Kind::Pack => u128::from(x.width),
    }
}

// Whether nothing is left of a parent.
pub(crate) fn is_nothing(x: Node, left: u128) -> bool
    ensures { result ≡ eqb left (rule.nothing (kind_of x.kind) (node_of x)) }
{
    match x.kind {
        Kind::Concat => left == u128::from(x.at),
        Kind::Segment | Kind::Pack => left == 0,
    }
}

// Whether a child fits its parent with so much left.
pub(crate) fn child_fits(x: Node, left: u128, y: Node) -> bool
    ensures { result ≡ rule.child_fits (kind_of x.kind) (node_of x) left (node_of y) }
{
    match x.kind {
        Kind::Segment => false,
        Kind::Concat => y.width == x.width && u128::from(y.at) + u128::from(y.rows) == left,
        Kind::Pack => y.rows == x.rows && y.at == x.at && u128::from(y.width) <= left,
    }
}

// What is left when it is taken off.
pub(crate) fn less(x: Node, left: u128, y: Node) -> u128
    ensures { result ≡ rule.less (kind_of x.kind) left (node_of y) }
{
    match x.kind {
        Kind::Segment => left,
        Kind::Concat => u128::from(y.at),
        Kind::Pack => left.saturating_sub(u128::from(y.width)),
    }
}
