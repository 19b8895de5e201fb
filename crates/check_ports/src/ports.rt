// All ports.
ghost use Rattle.std.specs.Prelude.{◌≡◌, ◌&&◌, ◌+◌, ◌*◌, ◌≤◌, ◌<◌};
ghost use Rattle.rules.specs.Table.{each};
ghost use Rattle.rules.specs.Check.{port_ok};
ghost use Rattle.numbers.specs.Loops.{from};
ghost use Rattle.tables.specs.View.{view};

use crate::bounded::slot_port;
use crate::shared::share_port;
use table_ports::blank::blank_ports;
use tables::{SharedPortIndex, SlotIndex, SlotPortIndex, StateBytes};

// Whether the 24 ports of slot k are in order, one by one. What follows them is left to test where they are.
fn slot_ports(s: &StateBytes, k: SlotIndex) -> bool
    ensures { from (port_ok (view s.now)) (view s.now).ports (k.at * 24)
        ≡ (result && from (port_ok (view s.now)) (view s.now).ports (k.at * 24 + 24)) }
{
    let count = table_job::counts::node_count(s);
    let root = reach::leaves::root(s);
    let active = table_lists::active::is_active(s, k.at);
    for n in 0..24 {
        if !slot_port(
            s,
            SlotPortIndex { at: k.at * 24 + n },
            n < count && active,
            n == root,
        ) {
            return false;
        }
    }
    true
}

// The same, at once where their bytes are all 0.
fn slot_ok(s: &StateBytes, k: SlotIndex) -> bool
    ensures { from (port_ok (view s.now)) (view s.now).ports (k.at * 24)
        ≡ (result && from (port_ok (view s.now)) (view s.now).ports (k.at * 24 + 24)) }
{
    blank_ports(s, k.at * 24, 24) || slot_ports(s, k)
}

// The ports of the 3 slots.
// kept: one loop for all blocks would take the test, the block's size and the table's rule, and need each call's answer in its contract: longer than this.
fn slots_ok(s: &StateBytes) -> bool
    ensures { from (port_ok (view s.now)) (view s.now).ports 0
        ≡ (result && from (port_ok (view s.now)) (view s.now).ports 72) }
{
    for k in 0..3 {
        if !slot_ok(s, SlotIndex { at: k }) {
            return false;
        }
    }
    true
}

// The 16 shared ports of a leaf, one by one.
fn leaf_ports(s: &StateBytes, x: usize) -> bool
    requires le_x { 72 ≤ x }
    requires x_bound { x + 16 ≤ 456 }
    ensures { from (port_ok (view s.now)) (view s.now).ports x
        ≡ (result && from (port_ok (view s.now)) (view s.now).ports (x + 16)) }
{
    for i in 0..16 {
        if !share_port(s, SharedPortIndex { at: x + i }) {
            return false;
        }
    }
    true
}

// The same, at once where their bytes are all 0.
fn leaf_ok(s: &StateBytes, x: usize) -> bool
    requires le_x { 72 ≤ x }
    requires x_bound { x + 16 ≤ 456 }
    ensures { from (port_ok (view s.now)) (view s.now).ports x
        ≡ (result && from (port_ok (view s.now)) (view s.now).ports (x + 16)) }
{
    blank_ports(s, x, 16) || leaf_ports(s, x)
}

// The shared ports of 4 leaves.
fn leaves_ok(s: &StateBytes, x: usize) -> bool
    requires le_x { 72 ≤ x }
    requires x_bound { x + 64 ≤ 456 }
    ensures { from (port_ok (view s.now)) (view s.now).ports x
        ≡ (result && from (port_ok (view s.now)) (view s.now).ports (x + 64)) }
{
    if blank_ports(s, x, 64) {
        return true;
    }
    for l in 0..4 {
        if !leaf_ok(s, x + l * 16) {
            return false;
        }
    }
    true
}

// Whether all ports are in order.
pub fn ports_ok(s: &StateBytes) -> bool
    ensures { result ≡ each (port_ok (view s.now)) 0 (view s.now).ports }
{
    if !slots_ok(s) {
        return false;
    }
    for b in 0..6 {
        if !leaves_ok(s, 72 + b * 64) {
            return false;
        }
    }
    true
}
