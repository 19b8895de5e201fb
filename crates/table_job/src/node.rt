// A node in its record: kind, width, parent, then the segment, the rows and where row 0 is.
ghost use Rattle.std.specs.Prelude.{◌≡◌, ◌+◌, ◌*◌, ◌<◌, length};
ghost use Rattle.rules.specs.Job.{no_node};
ghost use Rattle.jobs.specs.Job.{kind_of, node_of};
ghost use Rattle.tables.specs.Decode.{kind_from, node};

use jobs::{Kind, NONE, Node};
use layout::words;

// kept: a number for a kind, since these are the bytes of docs/STATE.md.
fn kind_of(k: u8) -> Kind
    ensures { kind_of result ≡ kind_from k }
{
    match k {
        0 => Kind::Segment,
        1 => Kind::Concat,
        _ => Kind::Pack,
    }
}

pub(crate) fn joined(low: u32, high: u32) -> u64
    ensures { result ≡ low + 4294967296 * high }
{
    u64::from(low) + 4294967296 * u64::from(high)
}

// What stands for a node where there is none.
pub(crate) fn no_node() -> Node
    ensures { node_of result ≡ no_node }
{
    Node {
        kind: Kind::Segment,
        segment: 0,
        rows: 0,
        width: 0,
        parent: NONE,
        at: 0,
    }
}

// The node of a record; none where its kind is none of the three.
pub(crate) fn get_node(r: &[u8]) -> Node
    requires { length r.now ≡ 19 }
    ensures { node_of result ≡ node r.now }
{
    let k = r[0];
    if 2 < k {
        return no_node();
    }
    let mut w = [0; 4];
    words::get_words(&r[3..19], &mut w);
    Node {
        kind: kind_of(k),
        segment: w[0],
        rows: w[1],
        width: r[1],
        parent: r[2],
        at: joined(w[2], w[3]),
    }
}
