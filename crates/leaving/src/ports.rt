// Ports of a slot and of a split, which go without a mark or a wake.
ghost use Rattle.rules.specs.Ports.{free_each};
ghost use Rattle.rules.specs.Scan.{places_of, split_ports};
ghost use Rattle.tables.specs.Change.{Becomes};

use tables::{PortIndex, SlotIndex, SplitIndex, StateBytes};

// kept: two loops of one call each; one over both would take a closure, and what that gives, in its contract

// The ports of slot k, by node.
pub(crate) fn free_places(s: &mut StateBytes, k: SlotIndex)
    ensures { Becomes (free_each (places_of k.at)) s.old s.new }
{
    for i in 0..24 {
        table_ports::vacant::free_port(s, PortIndex { at: 24 * k.at + i });
    }
}

// The shared ports of split t, by leaf.
pub(crate) fn free_shares(s: &mut StateBytes, t: SplitIndex)
    ensures { Becomes (free_each (split_ports t.at)) s.old s.new }
{
    for l in 0..24 {
        table_ports::vacant::free_port(
            s,
            PortIndex {
                at: 72 + (16 * l + t.at),
            },
        );
    }
}
