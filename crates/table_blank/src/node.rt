// A node into its record: kind, width, parent, then the segment, the rows and where row 0 is.
ghost use Rattle.std.specs.Prelude.{◌≡◌, ◌≤◌, ◌/◌, ◌%◌, length};
ghost use Rattle.jobs.specs.Job.{kind_of, node_of};
ghost use Rattle.tables.specs.Decode.{kind_from, node};

use jobs::{Kind, Node};

// The number of a kind.
// kept: tried as `k as u8`, and the proof did not close: it would name values of Rattle's own.
fn kind_number(k: Kind) -> u8
    ensures result_value { kind_from result ≡ kind_of k }
    ensures upper_bound { result ≤ 2 }
{
    match k {
        Kind::Segment => 0,
        Kind::Concat => 1,
        Kind::Pack => 2,
    }
}

// The low half of a number.
fn low(x: u64) -> u32
    ensures { result ≡ x % 4294967296 }
{
    (x % 4294967296) as u32
}

// Its high half.
fn high(x: u64) -> u32
    ensures { result ≡ x / 4294967296 }
{
    (x / 4294967296) as u32
}

// A node into its record.
pub(crate) fn put_node(r: &mut [u8], x: Node)
    requires { length r.old ≡ 19 }
    ensures { node r.new ≡ node_of x }
{
    let w = [x.segment, x.rows, low(x.at), high(x.at)];
    layout::words::put_words(&mut r[3..19], &w);
    let h = [kind_number(x.kind), x.width, x.parent];
    r[0..3].copy_from_slice(&h);
}
