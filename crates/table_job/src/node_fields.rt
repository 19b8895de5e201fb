// One field of a node, read without the others.
ghost use Rattle.std.specs.Prelude.{◌≡◌, ◌≤◌, IfSome};
ghost use Rattle.rules.specs.Plan.{node_of, is_leaf};
ghost use Rattle.tables.specs.View.{view};
ghost use Rattle.table_job.specs.NodeFields.{record_at};

use crate::nodes::NODES;
use crate::{counts, node};
use layout::words::get_word;
use tables::StateBytes;

// Where the record of a node of one of the three kinds begins; where there is none, a node without rows is read.
pub(crate) fn record_at(s: &StateBytes, n: usize) -> Option<usize>
    ensures value { result ≡ record_at s.now n }
    ensures upper_bound { IfSome result (λ a. a ≤ 1116) }
{
    if counts::node_count(s) <= n {
        return None;
    }
    let a = NODES + n * 19;
    if 2 < s[a] { None } else { Some(a) }
}

// kept: a function for each field. They differ by a place and a projection: a trait would take a type, a place, a projection and a law for each.

// The segment that a leaf names.
pub fn node_segment(s: &StateBytes, n: usize) -> u32
    ensures { result ≡ (node_of (view s.now).job n).segment }
{
    match record_at(s, n) {
        Some(a) => get_word(s, a + 3),
        None => 0,
    }
}

pub fn node_rows(s: &StateBytes, n: usize) -> u32
    ensures { result ≡ (node_of (view s.now).job n).rows }
{
    match record_at(s, n) {
        Some(a) => get_word(s, a + 7),
        None => 0,
    }
}

// The root's row that row 0 of a node is in.
pub fn first_row(s: &StateBytes, n: usize) -> u64
    ensures { result ≡ (node_of (view s.now).job n).at }
{
    match record_at(s, n) {
        Some(a) => node::joined(get_word(s, a + 11), get_word(s, a + 15)),
        None => 0,
    }
}

// Whether a node of the job is a segment, as one of none of the three kinds reads.
pub fn is_leaf(s: &StateBytes, n: usize) -> bool
    ensures { result ≡ is_leaf (view s.now).job n }
{
    if counts::node_count(s) <= n {
        return false;
    }
    let k = s[NODES + n * 19];
    k == 0 || 2 < k
}
