// Splits whose runs lie in the job bytes, into their table.
ghost use Rattle.std.specs.Prelude.{◌≤◌};
ghost use Rattle.jobs.specs.Job.{front};
ghost use Rattle.split_records.specs.Split.{outline_of, AllLie};
ghost use Rattle.tables.specs.Decode as decode;
ghost use Rattle.table_blank.specs.Filled.{Filled};

use crate::outline;
use split_records::Outline;
use tables::StateBytes;

// Where the splits lie.
const SPLITS: usize = 1135;

// The first n of some splits.
pub(crate) fn store_outlines(s: &mut StateBytes, b: &[u8], splits: [Outline; 16], n: usize)
    requires n_bound { n ≤ 16 }
    requires all_lie { AllLie b.now splits n }
    ensures { Filled decode.split 1135 137 16 s.old s.new n (front (outline_of b.now) splits n) }
{
    for i in 0..n {
        let a = SPLITS + i * 137;
        outline::put_outline(&mut s[a..a + 137], b, splits[i]);
    }
}
