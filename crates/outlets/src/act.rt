// What is done to a shared port.
ghost use Rattle.std.specs.Prelude.{◌-◌, ◌/◌};
ghost use Rattle.rules.specs.Ports.{push_to, close_to};
ghost use Rattle.table_ports.specs.Shares.{whole_batch};
ghost use Rattle.tables.specs.Change.{Becomes};
ghost use Rattle.tables.specs.View.{view};
ghost use Rattle.outlets.specs.Act.{act_on, CanAct};

use crate::mark;
use tables::{PortIndex, SharedPortIndex, StateBytes};

// It takes its whole segment, it is closed, or its mark goes to its reader.
// kept: an enum; a closure would carry these three cases in its contract, where `act_on` and `CanAct` say them of the enum
#[derive(Clone, Copy)]
pub(crate) enum Act {
    Push,
    Close,
    Pass,
}

// Its whole segment waits in port x; that it does already is a fault.
fn push_share(s: &mut StateBytes, x: SharedPortIndex)
    ensures { Becomes (λ m. push_to (whole_batch m.job ((x.at - 72) / 16)) x.at m) s.old s.new }
{
    let full = table_ports::share_flags::is_full(s, x);
    mark::mark_port(s, PortIndex { at: x.at });
    if full {
        table_lists::counters::set_fault(s, true);
        return;
    }
    table_ports::share_flags::fill_share(s, x);
}

// Port x is closed; it may wait for its reader.
fn close_share(s: &mut StateBytes, x: SharedPortIndex)
    ensures { Becomes (close_to x.at) s.old s.new }
{
    mark::close_port(s, PortIndex { at: x.at });
}

// What is to be done to port x.
pub(crate) fn apply(s: &mut StateBytes, a: Act, x: SharedPortIndex)
    requires can_act { CanAct a (view s.old) x.at }
    ensures { Becomes (act_on a x.at) s.old s.new }
{
    match a {
        Act::Push => push_share(s, x),
        Act::Close => close_share(s, x),
        Act::Pass => waking::mark::pass_mark(s, PortIndex { at: x.at }),
    }
}
