// What a pack notes of its inlets.
ghost use Rattle.std.specs.Prelude.{◌≡◌, ◌<◌, length};
ghost use Rattle.rules.specs.Table.{all, up_from};
ghost use Rattle.rules.specs.Check.{is_waiting_seen, pack_ok};
ghost use Rattle.queue.specs.Seen.{seen_of};
ghost use Rattle.inlet_set.specs.InletSet.{set_of};
ghost use Rattle.pack_source.specs.Pack.{seen_in};
ghost use Rattle.tables.specs.View.{view, Sized};
ghost use Rattle.check_sources.specs.Pack.{note_ok};

use crate::sets::set_ok;
use pack_source::PackSource;
use queue::Seen;
use tables::front::machine;
use tables::{PipeIndex, StateBytes};

// Whether an inlet was last seen waiting.
fn is_waiting(x: Seen) -> bool
    ensures { result ≡ is_waiting_seen (seen_of x) }
{
    x == Seen::Waiting
}

// Whether an inlet is in the waiting set just if it was last seen waiting.
fn note_ok(x: PackSource, i: usize) -> bool
    requires { i < length (seen_in x) }
    ensures { result ≡ note_ok (seen_in x) (set_of x.waiting) i }
{
    x.waiting.has(i as u8) == is_waiting(x.shown[i])
}

// The same for all inlets.
fn notes_ok(x: PackSource) -> bool
    ensures { result ≡ all (note_ok (seen_in x) (set_of x.waiting)) (up_from 0 (length (seen_in x))) }
{
    for i in 0..x.len() {
        if !note_ok(x, i) {
            return false;
        }
    }
    true
}

// Whether the waiting set of the pack at a place holds the inlets that were last seen waiting.
pub(crate) fn waits_as_seen(s: &StateBytes, p: PipeIndex) -> bool
    ensures { result ≡ pack_ok (view s.now) p.at }
{
    let x = table_sets::packs::load_pack(s, p);
    x.len() == table_pipes::inlets::inlet_count(s, p) && set_ok(x.len(), x.waiting) && notes_ok(x)
}

// The same in any bytes that have a machine.
pub fn pack_ok(s: &[u8], p: PipeIndex) -> bool
    requires sized { Sized s.now }
    ensures { result ≡ pack_ok (view s.now) p.at }
{
    waits_as_seen(machine(s), p)
}
