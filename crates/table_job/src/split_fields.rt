// One field of a split, or one of its runs, read without the others.
ghost use Rattle.std.specs.Prelude.{◌≡◌, ◌≤◌, length};
ghost use Rattle.rules.specs.Table.{get};
ghost use Rattle.rules.specs.Plan.{split_of};
ghost use Rattle.jobs.specs.Job.{run_of};
ghost use Rattle.tables.specs.View.{view};
ghost use Rattle.table_job.specs.SplitFields.{no_run};

use crate::split_table::SPLITS;
use crate::{counts, split};
use jobs::Run;
use layout::words;
use tables::StateBytes;

// kept: a function for each field, as in `node_fields`.
pub fn split_start(s: &StateBytes, t: usize) -> u32
    ensures { result ≡ (split_of (view s.now).job t).start }
{
    if counts::split_count(s) <= t {
        return 0;
    }
    words::get_word(s, SPLITS + t * 137 + 1)
}

pub fn split_end(s: &StateBytes, t: usize) -> u32
    ensures { result ≡ (split_of (view s.now).job t).end }
{
    if counts::split_count(s) <= t {
        return 0;
    }
    words::get_word(s, SPLITS + t * 137 + 5)
}

// How many runs a split has; a count past the table is one run without rows.
pub fn run_count(s: &StateBytes, t: usize) -> usize
    ensures value { result ≡ length (split_of (view s.now).job t).runs }
    ensures upper_bound { result ≤ 16 }
{
    if counts::split_count(s) <= t {
        return 0;
    }
    let n = usize::from(s[SPLITS + t * 137]);
    if 16 < n { 1 } else { n }
}

fn no_run() -> Run
    ensures { run_of result ≡ no_run }
{
    Run { start: 0, size: 0 }
}

// A run of a split; past the last, one without rows.
// kept: two tests with one answer, as in `counts::node_count`.
pub fn run_at(s: &StateBytes, t: usize, i: usize) -> Run
    ensures { run_of result ≡ get no_run (split_of (view s.now).job t).runs i }
{
    if counts::split_count(s) <= t {
        return no_run();
    }
    let a = SPLITS + t * 137;
    let n = usize::from(s[a]);
    if 16 < n {
        return no_run();
    }
    if n <= i {
        return no_run();
    }
    let b = a + 9 + i * 8;
    split::get_run(&s[b..b + 8])
}
