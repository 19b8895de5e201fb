// A split whose runs lie in the job bytes, into its record.
ghost use Rattle.std.specs.Prelude.{◌≡◌, [], ◌∷◌, ◌++◌, ◌+◌, ◌≤◌, ◌<◌, length, take};
ghost use Rattle.rules.specs.Job.{join_runs};
ghost use Rattle.records.specs.Read.{runs_at};
ghost use Rattle.jobs.specs.Job.{run_of};
ghost use Rattle.split_records.specs.Split.{outline_of, Lies};
ghost use Rattle.layout.specs.Records.{table};
ghost use Rattle.tables.specs.Decode.{run, split};

use jobs::Run;
use split_records::{Outline, splits};

// A run into a table of 16, behind the first k.
fn put_run(r: &mut [u8], k: usize, x: Run)
    requires r_len { length r.old ≡ 128 }
    requires k_bound { k < 16 }
    ensures { take (k + 1) (table run 8 16 r.new) ≡ take k (table run 8 16 r.old) ++ run_of x ∷ [] }
{
    let w = [x.start, x.size];
    let a = k * 8;
    layout::words::put_words(&mut r[a..a + 8], &w);
}

// The runs of a split from the job bytes into a table of 16, and how many they are there: a run that meets the one in hand lengthens it, any
// other takes its place, and the one in hand is written.
fn copy_runs(r: &mut [u8], b: &[u8], x: Outline) -> usize
    requires r_len { length r.old ≡ 128 }
    requires lies { Lies b.now x }
    ensures upper_bound { result ≤ 16 }
    ensures r_after { take result (table run 8 16 r.new) ≡ join_runs (runs_at b.now x.at x.count) }
{
    if x.count == 0 {
        return 0;
    }
    let mut y = splits::run_at(b, x.at);
    let mut k = 0;
    for i in 1..x.count {
        let z = splits::run_at(b, x.at + 8 * i);
        if splits::end_of(y) == u64::from(z.start) {
            y.size += z.size;
        } else {
            put_run(r, k, y);
            k += 1;
            y = z;
        }
    }
    put_run(r, k, y);
    k + 1
}

// The split into its record.
pub(crate) fn put_outline(r: &mut [u8], b: &[u8], x: Outline)
    requires r_len { length r.old ≡ 137 }
    requires lies { Lies b.now x }
    ensures { split r.new ≡ outline_of b.now x }
{
    let w = [x.start, x.end];
    layout::words::put_words(&mut r[1..9], &w);
    let k = copy_runs(&mut r[9..137], b, x);
    r[0] = k as u8;
}
