// All queues: what waits stands in a port in use.
ghost use Rattle.std.specs.Prelude.{◌≡◌, ◌&&◌, ◌+◌, ◌≤◌};
ghost use Rattle.rules.specs.Table.{each};
ghost use Rattle.rules.specs.Machine.{queue_at};
ghost use Rattle.rules.specs.Check.{queue_ok};
ghost use Rattle.numbers.specs.Loops.{from};
ghost use Rattle.tables.specs.View.{view};

use tables::{PortIndex, StateBytes};

// Whether port x is in use or empty.
fn queue_ok(s: &StateBytes, x: PortIndex) -> bool
    ensures { result ≡ queue_ok (view s.now) x.at (queue_at (view s.now) x.at) }
{
    table_ports::idle::is_idle(s, x) || table_ports::ports::is_used(s, x)
}

// Whether those of the n ports from x on that hold something are in use, one by one. What follows them is left to test where they are.
fn queues_from(s: &StateBytes, x: usize, n: usize) -> bool
    requires n_bound { x + n ≤ 456 }
    ensures { from (queue_ok (view s.now)) (view s.now).queues x
        ≡ (result && from (queue_ok (view s.now)) (view s.now).queues (x + n)) }
{
    for i in x..x + n {
        if !queue_ok(s, PortIndex { at: i }) {
            return false;
        }
    }
    true
}

// The same for the 24 ports of a slot, at once where the bytes of their rings are all 0.
fn slot_ok(s: &StateBytes, x: usize) -> bool
    requires x_bound { x + 24 ≤ 72 }
    ensures { from (queue_ok (view s.now)) (view s.now).queues x
        ≡ (result && from (queue_ok (view s.now)) (view s.now).queues (x + 24)) }
{
    table_ports::blank::blank_rings(s, x, 24) || queues_from(s, x, 24)
}

// The ports of the 3 slots.
// kept: a loop like that of ports.rt, for the reason there.
fn slots_ok(s: &StateBytes) -> bool
    ensures { from (queue_ok (view s.now)) (view s.now).queues 0
        ≡ (result && from (queue_ok (view s.now)) (view s.now).queues 72) }
{
    for k in 0..3 {
        if !slot_ok(s, k * 24) {
            return false;
        }
    }
    true
}

// The shared ports of 4 leaves, at once where their flags are all 0.
fn leaves_ok(s: &StateBytes, x: usize) -> bool
    requires le_x { 72 ≤ x }
    requires x_bound { x + 64 ≤ 456 }
    ensures { from (queue_ok (view s.now)) (view s.now).queues x
        ≡ (result && from (queue_ok (view s.now)) (view s.now).queues (x + 64)) }
{
    table_ports::blank::blank_shares(s, x, 64) || queues_from(s, x, 64)
}

// Whether every port that holds something is in use.
pub fn queues_ok(s: &StateBytes) -> bool
    ensures { result ≡ each (queue_ok (view s.now)) 0 (view s.now).queues }
{
    if !slots_ok(s) {
        return false;
    }
    for b in 0..6 {
        if !leaves_ok(s, 72 + b * 64) {
            return false;
        }
    }
    true
}
