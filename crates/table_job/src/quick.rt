// Fields of nodes and splits, read where they lie: for tests that ask for no whole record.
ghost use Rattle.std.specs.Prelude.{◌≡◌, ◌<◌, length};
ghost use Rattle.rules.specs.Table.{get};
ghost use Rattle.rules.specs.Job.{other_rows};
ghost use Rattle.rules.specs.Plan as plan;
ghost use Rattle.jobs.specs.Job.{run_of};
ghost use Rattle.layout.specs.Cut.{cut};
ghost use Rattle.layout.specs.Numbers.{byte};
ghost use Rattle.layout.specs.Records.{table};
ghost use Rattle.tables.specs.Decode.{node, run, split};
ghost use Rattle.tables.specs.View.{view};
ghost use Rattle.table_job.specs.Quick.{no_run};

use crate::nodes::NODES;
use crate::split::{self, SplitRecord};
use crate::split_table::SPLITS;
use jobs::Run;
use layout::words;
use tables::StateBytes;

// Whether the node of a record is of a segment, with another number of rows. A kind that is none of the three reads as segment 0
// without rows.
fn differs(r: &[u8], g: u32, n: u32) -> bool
    requires { length r.now ≡ 19 }
    ensures { result ≡ other_rows g n (node r.now) }
{
    match r[0] {
        0 => words::get_word(r, 3) == g && words::get_word(r, 7) != n,
        1 | 2 => false,
        _ => g == 0 && n != 0,
    }
}

// Whether a node is of a segment, with another number of rows.
pub fn other_rows(s: &StateBytes, k: usize, g: u32, n: u32) -> bool
    requires { k < length (view s.now).job.nodes }
    ensures { result ≡ other_rows g n (plan.node_of (view s.now).job k) }
{
    let a = NODES + k * 19;
    differs(&s[a..a + 19], g, n)
}

// The record of a split, with its length in its type.
pub fn split_record(s: &StateBytes, i: usize) -> &SplitRecord
    requires { i < length (view s.now).job.splits }
    ensures { split result.now ≡ plan.split_of (view s.now).job i }
{
    let a = SPLITS + i * 137;
    s[a..a + 137].try_into().unwrap()
}

// kept: a function for each field, as in `node_fields`.

// Where the split of a record starts.
pub fn start(r: &SplitRecord) -> u32
    ensures { result ≡ (split r.now).start }
{
    words::get_word(r, 1)
}

// Where it ends.
pub fn end(r: &SplitRecord) -> u32
    ensures { result ≡ (split r.now).end }
{
    words::get_word(r, 5)
}

// How many runs it names, which may be more than there are places.
pub fn count(r: &SplitRecord) -> usize
    ensures { result ≡ byte r.now 0 }
{
    usize::from(r[0])
}

// A run in its place.
pub fn run(r: &SplitRecord, k: usize) -> Run
    requires { k < 16 }
    ensures { run_of result ≡ get no_run (table run 8 16 (cut 9 137 r.now)) k }
{
    let a = 9 + k * 8;
    split::get_run(&r[a..a + 8])
}
