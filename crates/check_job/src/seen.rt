// Which segments have come, as far as 64 marks can tell: each segment marks the place of its number's last six bits.
ghost use Rattle.std.specs.Prelude.{◌≡◌, ◌&&◌, ◌||◌, not, ◌%◌, length, get_or, set, eqb};
ghost use Rattle.rules.specs.Job.{is_segment};
ghost use Rattle.jobs.specs.Job.{kind_of};

use jobs::{Kind, nodes};

// A segment comes. Whether it is surely a new one: no segment has marked its place.
pub(crate) fn mark(seen: &mut [u8], segment: u32) -> bool
    requires { length seen.old ≡ 64 }
    ensures value { result ≡ eqb (get_or seen.old (segment % 64) 0) 0 }
    ensures seen_after { seen.new ≡ set seen.old (segment % 64) 1 }
{
    let k = (segment % 64) as usize;
    let fresh = seen[k] == 0;
    seen[k] = 1;
    fresh
}

// Whether all leaves were fresh as they came, with one node more.
pub(crate) fn all_fresh(before: bool, k: Kind, fresh: bool) -> bool
    ensures { result ≡ (before && (fresh || not (is_segment (kind_of k)))) }
{
    before && (fresh || !nodes::is_segment(k))
}
