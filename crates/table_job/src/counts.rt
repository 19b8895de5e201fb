// How many slots, nodes and splits a job has.
ghost use Rattle.std.specs.Prelude.{◌≡◌, ◌≤◌, length};
ghost use Rattle.tables.specs.View.{view};

use tables::StateBytes;

pub fn slots(s: &StateBytes) -> u8
    ensures { result ≡ (view s.now).job.slots }
{
    s[0]
}

// A count of nodes or splits past its table makes a job without nodes.
// kept: two tests with one answer. By `||` the proof has a joined branch, where each test names its lemma.
pub fn node_count(s: &StateBytes) -> usize
    ensures value { result ≡ length (view s.now).job.nodes }
    ensures upper_bound { result ≤ 24 }
{
    if 24 < s[1] {
        0
    } else if 16 < s[2] {
        0
    } else {
        usize::from(s[1])
    }
}

pub fn split_count(s: &StateBytes) -> usize
    ensures value { result ≡ length (view s.now).job.splits }
    ensures upper_bound { result ≤ 16 }
{
    usize::from(s[2]).min(16)
}
