// Whether anybody reads a shared source.
ghost use Rattle.std.specs.Prelude.{◌≡◌, ◌≤◌};
ghost use Rattle.rules.specs.Scan.{is_unread};
ghost use Rattle.laws.specs.JobOk.{JobOk};
ghost use Rattle.tables.specs.View.{view, Sized};
ghost use Rattle.outlets.specs.Unread.{none_at};

use crate::outlet;
use tables::front::machine;
use tables::{NodeIndex, SharedPortIndex, StateBytes};

// Whether the shared source at p has no outlet among the 16 ports of leaf l: at once where the leaf is of another segment.
fn none_at(s: &StateBytes, p: usize, l: NodeIndex) -> bool
    ensures { result ≡ none_at (view s.now) p l.at }
{
    if !reach::leaves::same_segment(s, l.at, p % 24) {
        return true;
    }
    for x in 72 + 16 * l.at..72 + 16 * l.at + 16 {
        if outlet::is_outlet(s, p, SharedPortIndex { at: x }) {
            return false;
        }
    }
    true
}

// Nobody reads it where none of its ports is there; one that waits for its claim counts.
fn nobody_reads(s: &StateBytes, p: usize) -> bool
    requires le_p { 72 ≤ p }
    requires job_ok { JobOk (view s.now).job }
    ensures { result ≡ is_unread (view s.now) p }
{
    for l in 0..24 {
        if !none_at(s, p, NodeIndex { at: l }) {
            return false;
        }
    }
    true
}

// The same in any bytes that have a machine.
pub fn is_unread(s: &[u8], p: usize) -> bool
    requires sized { Sized s.now }
    requires le_p { 72 ≤ p }
    requires job_ok { JobOk (view s.now).job }
    ensures { result ≡ is_unread (view s.now) p }
{
    nobody_reads(machine(s), p)
}
