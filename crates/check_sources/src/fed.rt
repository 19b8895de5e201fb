// The ports that feed a pipeline.
ghost use Rattle.std.specs.Prelude.{◌≡◌, ◌&&◌, ◌-◌, ◌/◌, ◌%◌, ◌≤◌, ltb};
ghost use Rattle.rules.specs.Plan.{names};
ghost use Rattle.rules.specs.Machine.{inlets_at};
ghost use Rattle.rules.specs.Check.{fed_below, fed_shared};
ghost use Rattle.tables.specs.View.{view, Sized};
ghost use Rattle.check_sources.specs.Fed.{below, inlet_ok};

use jobs::nodes;
use table_pipes::inlets::{inlet, inlet_count};
use tables::front::machine;
use tables::{PipeIndex, StateBytes};

// Whether port x is of a child of the place's node, in its slot.
fn is_below(s: &StateBytes, p: usize, x: usize) -> bool
    ensures { result ≡ below (view s.now) p x }
{
    let node = table_job::nodes::load_node(s, x % 24);
    x / 24 == p / 24 && nodes::is_kid(node, p % 24)
}

// Whether the port of an inlet is not before the least that may be next, and below the place.
fn inlet_ok(s: &StateBytes, p: usize, least: usize, x: usize) -> bool
    ensures { result ≡ inlet_ok (view s.now) p least x }
{
    least <= x && is_below(s, p, x)
}

// Whether a pipeline is fed by children of its node in its slot, by rising port: each is past the one before it.
pub(crate) fn fed_by_children(s: &StateBytes, p: PipeIndex) -> bool
    ensures { result ≡ fed_below (view s.now) p.at (inlets_at (view s.now) p.at) }
{
    let mut least = 0;
    for i in 0..inlet_count(s, p) {
        let x = inlet(s, p, i);
        if !inlet_ok(s, p.at, least, x) {
            return false;
        }
        least = x + 1;
    }
    true
}

// The same in any bytes that have a machine.
pub fn fed_below(s: &[u8], p: PipeIndex) -> bool
    requires sized { Sized s.now }
    ensures { result ≡ fed_below (view s.now) p.at (inlets_at (view s.now) p.at) }
{
    fed_by_children(machine(s), p)
}

// Whether the shared port x is of the segment of the leaf in a slot.
fn is_own(s: &StateBytes, p: usize, x: usize) -> bool
    requires le_x { 72 ≤ x }
    ensures { result ≡ (ltb x 456 && ltb p 72 && names (view s.now).job (p % 24) ((x - 72) / 16)) }
{
    x < 456 && p < 72 && reach::leaves::same_segment(s, (x - 72) / 16, p % 24)
}

// Whether a pipeline in a slot is fed by one shared port of its own segment.
pub fn fed_shared(s: &StateBytes, p: PipeIndex) -> bool
    ensures { result ≡ fed_shared (view s.now) p.at (inlets_at (view s.now) p.at) }
{
    // kept: as one expression it would need a block for the inlet that is read.
    if inlet_count(s, p) != 1 {
        return false;
    }
    let x = inlet(s, p, 0);
    72 <= x && is_own(s, p.at, x)
}
