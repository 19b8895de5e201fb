// Leaves of one segment, and the root.
ghost use Rattle.std.specs.Prelude.{◌≡◌, ◌&&◌, ◌<◌, eqb};
ghost use Rattle.rules.specs.Plan.{node_of, is_leaf, first_leaf, root_of};
ghost use Rattle.tables.specs.View.{view};

use tables::{NodeIndex, StateBytes};

// Whether node l is a leaf that names a segment.
pub fn names(s: &StateBytes, l: usize, segment: u32) -> bool
    ensures { result ≡ (is_leaf (view s.now).job l && eqb (node_of (view s.now).job l).segment segment) }
{
    table_job::node_fields::node_segment(s, l) == segment && table_job::node_fields::is_leaf(s, l)
}

// Whether node l is a leaf that names the segment of node g.
pub fn same_segment(s: &StateBytes, l: usize, g: usize) -> bool
    ensures { result ≡ (is_leaf (view s.now).job l
        && eqb (node_of (view s.now).job l).segment (node_of (view s.now).job g).segment) }
{
    names(s, l, table_job::node_fields::node_segment(s, g))
}

// The first leaf that names the segment of leaf l; l itself where no leaf does.
pub fn first_leaf(s: &StateBytes, l: NodeIndex) -> usize
    ensures value { result ≡ first_leaf (view s.now).job l.at }
    ensures upper_bound { result < 24 }
{
    let n = table_job::counts::node_count(s);
    let segment = table_job::node_fields::node_segment(s, l.at);
    for i in 0..n {
        if names(s, i, segment) {
            return i;
        }
    }
    l.at
}

// The root's number; 0 where the job has no nodes.
pub fn root(s: &StateBytes) -> usize
    ensures value { result ≡ root_of (view s.now).job }
    ensures upper_bound { result < 24 }
{
    table_job::counts::node_count(s).saturating_sub(1)
}
