// Where each node's rows stand among the root's rows.
ghost use Rattle.std.specs.Prelude.{◌≡◌, ℕ, ◌≤◌, ◌<◌, get_or};
ghost use Rattle.rules.specs.Job as rule;
ghost use Rattle.laws.specs.Tree.{TreeOk};
ghost use Rattle.jobs.specs.Job.{kind_of, node_of, front};
ghost use Rattle.plan.specs.Place.{share_of, start_of};

use jobs::{Kind, NONE, Node, nodes};

// How much further a child's rows move those of the next in a node of kind k.
fn share(k: Kind, rows: u32) -> u64
    ensures value { result ≡ share_of (kind_of k) rows }
    ensures upper_bound { result < 4294967296 }
{
    if nodes::is_pack(k) {
        0
    } else {
        u64::from(rows)
    }
}

// Where each node's rows start among its parent's, or 0 where it has none. `sums`: the rows of each node's children so far.
fn starts(table: [Node; 24], count: usize) -> [u64; 24]
    requires count_bound { count ≤ 24 }
    requires tree_ok { TreeOk (front node_of table count) }
    ensures { (i : ℕ) → i < count → get_or result i 0 ≡ start_of (front node_of table count) i }
{
    let mut starts = [0u64; 24];
    let mut sums = [0u64; 24];
    for i in 0..count {
        let x = table[i];
        if x.parent != NONE {
            let p = usize::from(x.parent);
            let y = table[p];
            let k = y.kind;
            starts[i] = sums[p];
            sums[p] += share(k, x.rows);
        }
    }
    starts
}

// The nodes with their rows' places, the last first: a parent stands after its children.
pub fn place(table: [Node; 24], count: usize) -> [Node; 24]
    requires count_bound { count ≤ 24 }
    requires tree_ok { TreeOk (front node_of table count) }
    ensures { front node_of result count ≡ rule.place_from 0 (front node_of table count) (front node_of table count) }
{
    let start = starts(table, count);
    let mut out = table;
    for i in (0..count).rev() {
        let mut x = out[i];
        x.at = start[i];
        if x.parent != NONE {
            let p = usize::from(x.parent);
            let y = out[p];
            x.at += y.at;
        }
        out[i] = x;
    }
    out
}
