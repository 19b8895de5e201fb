// The ports of a shared segment: one for each claimant.
ghost use Rattle.std.specs.Prelude.{◌≡◌, true, map, ◌+◌, ◌%◌, ◌<◌};
ghost use Rattle.rules.specs.Plan.{names};
ghost use Rattle.rules.specs.Shares.{claimants, port_of, make_ports};
ghost use Rattle.tables.specs.Change.{Becomes};
ghost use Rattle.tables.specs.View.{view};
ghost use Rattle.claims.specs.Leaves.{open_in};
ghost use Rattle.claims.specs.Made.{made_port, made_if, leaf_ports};

use crate::{claimants, ports};
use reach::Reach;
use table_ports::Reader;
use tables::{NodeIndex, PortIndex, SplitIndex, StateBytes};

// A port that waits for its claim; a cause of 14 where it is in use.
fn made_port(s: &mut StateBytes, x: PortIndex)
    ensures { Becomes (made_port x.at) s.old s.new }
{
    let v = table_ports::ports::load_port(s, x);
    ports::make_port(s, x, Reader::Nobody);
    table_lists::causes::fault_if(s, v.there);
}

// The port of pair y, if its split is not finished and overlaps the reach of its leaf.
fn made_if(s: &mut StateBytes, r: Reach, y: usize)
    requires y_bound { y < 384 }
    ensures { Becomes (λ m. made_if (open_in m.job m.finished r.start r.end (y % 16)) (72 + y) m) s.old s.new }
{
    if claimants::is_open(s, r, SplitIndex { at: y % 16 }) {
        made_port(s, PortIndex { at: 72 + y });
    }
}

// The ports of leaf i, which is of the segment of leaf l.
fn make_open(s: &mut StateBytes, l: usize, i: NodeIndex)
    requires i_value { names (view s.old).job l i.at ≡ true }
    ensures { Becomes (λ m. make_ports (leaf_ports m l i.at) m) s.old s.new }
{
    let reach = reach::within::reach_of(s, i.at);
    let n = table_job::counts::split_count(s);
    for y in 16 * i.at..16 * i.at + n {
        made_if(s, reach, y);
    }
}

// The ports of node i, if it is a leaf of the segment of leaf l.
fn make_leaf(s: &mut StateBytes, l: usize, i: NodeIndex)
    ensures { Becomes (λ m. make_ports (leaf_ports m l i.at) m) s.old s.new }
{
    if reach::leaves::same_segment(s, i.at, l) {
        make_open(s, l, i);
    }
}

// A port for each claimant.
pub(crate) fn make_ports(s: &mut StateBytes, l: usize)
    ensures { Becomes (λ m. make_ports (map port_of (claimants m l)) m) s.old s.new }
{
    let n = table_job::counts::node_count(s);
    for i in 0..n {
        make_leaf(s, l, NodeIndex { at: i });
    }
}
