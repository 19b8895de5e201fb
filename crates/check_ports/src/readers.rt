// Who reads a port.
ghost use Rattle.std.specs.Prelude.{◌≡◌, ◌&&◌, ◌<◌, eqb, ltb};
ghost use Rattle.rules.specs.Plan.{root_of};
ghost use Rattle.rules.specs.Machine.{node_at_place};
ghost use Rattle.rules.specs.Check.{read_by, reader_ok};
ghost use Rattle.table_ports.specs.Ports.{reader_of};
ghost use Rattle.tables.specs.View.{view};

use table_pipes::inlets::{inlet, inlet_count};
use table_ports::Reader;
use tables::{PipeIndex, SharedPortIndex, SlotPortIndex, StateBytes};

// Whether inlet i of pipeline p, which is of a slot, reads port x.
#[tactic(auto, using(crate::specs::Ports::inlet_any))]
fn read_by(s: &StateBytes, x: usize, p: usize, i: usize) -> bool
    ensures { result ≡ (ltb p 72 && read_by (view s.now) x p i) }
{
    if 72 <= p {
        return false;
    }
    let p = PipeIndex { at: p };
    table_pipes::pipes::is_live(s, p) && i < inlet_count(s, p) && inlet(s, p, i) == x
}

// Whether a reader may read port x of a slot: the slot the root's port, an inlet another one.
pub(crate) fn slot_reader(s: &StateBytes, x: SlotPortIndex, root: bool, r: Reader) -> bool
    requires root_value { root ≡ eqb (node_at_place x.at) (root_of (view s.now).job) }
    ensures { result ≡ reader_ok (view s.now) x.at (reader_of r) }
{
    match r {
        Reader::Nobody => false,
        Reader::Slot => root,
        Reader::Pipe(p, i) => read_by(s, x.at, usize::from(p), usize::from(i)) && !root,
    }
}

// Whether a reader may read the shared port x: an inlet or nobody.
pub(crate) fn share_reader(s: &StateBytes, x: SharedPortIndex, r: Reader) -> bool
    ensures { result ≡ reader_ok (view s.now) x.at (reader_of r) }
{
    match r {
        Reader::Nobody => true,
        Reader::Slot => false,
        Reader::Pipe(p, i) => read_by(s, x.at, usize::from(p), usize::from(i)),
    }
}
