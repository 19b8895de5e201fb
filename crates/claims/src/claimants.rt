// The pairs of a leaf of a segment and an unfinished split that overlaps its reach, by leaf, then split: pair y is of leaf y / 16 and split
// y % 16, and its port is 72 + y.
ghost use Rattle.std.specs.Prelude.{◌≡◌, true, ◌*◌, ◌≤◌, ◌<◌, length};
ghost use Rattle.rules.specs.Plan.{names};
ghost use Rattle.rules.specs.Table.{sum_of, up_from};
ghost use Rattle.rules.specs.Shares.{claimants, first_for};
ghost use Rattle.tables.specs.View.{view};
ghost use Rattle.claims.specs.Claimed.{number_of};
ghost use Rattle.claims.specs.Pairs.{is_claimant, claim_mark};
ghost use Rattle.claims.specs.Leaves.{open_in};

use reach::Reach;
use tables::{NodeIndex, PortIndex, SplitIndex, StateBytes};

// Whether pair y is a claimant of the segment of leaf l.
fn is_claimant(s: &StateBytes, l: usize, y: usize) -> bool
    ensures { result ≡ is_claimant (view s.now).job (view s.now).finished l y }
{
    let i = y / 16;
    let t = y % 16;
    reach::leaves::same_segment(s, i, l)
        && t < table_job::counts::split_count(s)
        && reach::within::overlaps(s, i, t)
        && !table_lists::flags::finished(s, SplitIndex { at: t })
}

// Whether split t is not finished and overlaps a reach.
pub(crate) fn is_open(s: &StateBytes, r: Reach, t: SplitIndex) -> bool
    ensures { result ≡ open_in (view s.now).job (view s.now).finished r.start r.end t.at }
{
    reach::within::meets(s, r, t.at) && !table_lists::flags::finished(s, t)
}

// How many claimants are of leaf i, which is of the segment of leaf l.
fn open_count(s: &StateBytes, l: usize, i: NodeIndex) -> usize
    requires i_value { names (view s.now).job l i.at ≡ true }
    ensures value { result ≡ sum_of (claim_mark (view s.now) l) (up_from (16 * i.at) 16) }
    ensures upper_bound { result ≤ 16 }
{
    let reach = reach::within::reach_of(s, i.at);
    let n = table_job::counts::split_count(s);
    let mut count = 0;
    for y in 16 * i.at..16 * i.at + n {
        count += usize::from(is_open(s, reach, SplitIndex { at: y % 16 }));
    }
    count
}

// How many claimants of the segment of leaf l are of node i.
fn leaf_count(s: &StateBytes, l: usize, i: NodeIndex) -> usize
    ensures value { result ≡ sum_of (claim_mark (view s.now) l) (up_from (16 * i.at) 16) }
    ensures upper_bound { result ≤ 16 }
{
    if reach::leaves::same_segment(s, i.at, l) {
        return open_count(s, l, i);
    }
    0
}

// How many claimants there are.
pub(crate) fn claimant_count(s: &StateBytes, l: usize) -> usize
    ensures { result ≡ length (claimants (view s.now) l) }
{
    let n = table_job::counts::node_count(s);
    let mut count = 0;
    for i in 0..n {
        count += leaf_count(s, l, NodeIndex { at: i });
    }
    count
}

// The port of the first claimant of split t.
pub(crate) fn first_for(s: &StateBytes, l: usize, t: SplitIndex) -> Option<PortIndex>
    ensures { number_of result ≡ first_for t.at (claimants (view s.now) l) }
{
    let n = table_job::counts::node_count(s);
    for i in 0..n {
        let y = 16 * i + t.at;
        if is_claimant(s, l, y) {
            return Some(PortIndex { at: 72 + y });
        }
    }
    None
}
