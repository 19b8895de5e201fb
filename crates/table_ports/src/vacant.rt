// A port that is not in use any more, be it one of a slot or shared.
ghost use Rattle.std.specs.Prelude.{[]};
ghost use Rattle.rules.specs.Machine.{set_queue};
ghost use Rattle.rules.specs.Ports.{free_port};
ghost use Rattle.tables.specs.Change.{Becomes};

use crate::ports::{Port, Reader, store_port};
use crate::queues::clear_queue;
use crate::share_flags::clear_share;
use tables::{PortIndex, SharedPortIndex, SlotPortIndex, StateBytes};

// Nothing waits in port x.
pub fn empty_queue(s: &mut StateBytes, x: PortIndex)
    ensures { Becomes (set_queue x.at []) s.old s.new }
{
    if x.at < 72 {
        clear_queue(s, SlotPortIndex { at: x.at });
    } else {
        clear_share(s, SharedPortIndex { at: x.at });
    }
}

// Port x is not in use.
pub fn free_port(s: &mut StateBytes, x: PortIndex)
    ensures { Becomes (free_port x.at) s.old s.new }
{
    let none = Port {
        there: false,
        closed: false,
        changed: false,
        reader: Reader::Nobody,
    };
    store_port(s, x, none);
    empty_queue(s, x);
}
