// A split in its record: the number of runs, its start and end, then the runs.
ghost use Rattle.std.specs.Prelude.{◌≡◌, ◌≤◌, ◌<◌, length, take};
ghost use Rattle.jobs.specs.Job.{run_of, split_of, front};
ghost use Rattle.layout.specs.Records.{table};
ghost use Rattle.tables.specs.Decode.{run, split};

use jobs::{Run, Split};
use layout::words;

// The bytes of a split.
pub type SplitRecord = [u8; 137];

pub(crate) fn get_run(r: &[u8]) -> Run
    requires { length r.now ≡ 8 }
    ensures { run_of result ≡ run r.now }
{
    let mut w = [0; 2];
    words::get_words(r, &mut w);
    Run {
        start: w[0],
        size: w[1],
    }
}

// kept: a count beside an array: fixed memory.
// The first n runs of a table of 16.
fn get_runs(r: &[u8], n: usize) -> [Run; 16]
    requires r_len { length r.now ≡ 128 }
    requires n_bound { n ≤ 16 }
    ensures { front run_of result n ≡ take n (table run 8 16 r.now) }
{
    let mut runs = [Run { start: 0, size: 0 }; 16];
    for i in 0..n {
        let a = i * 8;
        runs[i] = get_run(&r[a..a + 8]);
    }
    runs
}

// The split of a record; one run without rows where there are too many.
pub(crate) fn get_split(r: &SplitRecord) -> Split
    ensures result_value { split_of result ≡ split r.now }
    ensures count_bound { result.count ≤ 16 }
{
    let mut w = [0; 2];
    words::get_words(&r[1..9], &mut w);
    let n = usize::from(r[0]);
    if 16 < n {
        return Split {
            start: w[0],
            end: w[1],
            count: 1,
            runs: [Run { start: 0, size: 0 }; 16],
        };
    }
    Split {
        start: w[0],
        end: w[1],
        count: n,
        runs: get_runs(&r[9..137], n),
    }
}
