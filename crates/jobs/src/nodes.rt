// Tests of a node.
ghost use Rattle.std.specs.Prelude.{◌≡◌};
ghost use Rattle.rules.specs.Table.{is_some};
ghost use Rattle.rules.specs.Job as rule;
ghost use Rattle.jobs.specs.Job.{kind_of, parent_of};

use crate::{Kind, NONE, Node};

pub fn is_segment(k: Kind) -> bool
    ensures { result ≡ rule.is_segment (kind_of k) }
{
    k == Kind::Segment
}

pub fn is_pack(k: Kind) -> bool
    ensures { result ≡ rule.is_pack (kind_of k) }
{
    k == Kind::Pack
}

// Whether a node's parent is p.
#[tactic(auto, unfolding(rules::specs::Table::is_some))]
pub fn is_kid(x: Node, p: usize) -> bool
    ensures { result ≡ is_some p (parent_of x.parent) }
{
    x.parent != NONE && p == usize::from(x.parent)
}
