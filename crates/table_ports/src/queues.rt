// The queue of a bounded port: the batches of its ring, the oldest first.
ghost use Rattle.std.specs.Prelude.{◌≡◌, [], ◌∷◌, ◌≤◌, ◌<◌, length, drop, ltb};
ghost use Rattle.rules.specs.Table.{get};
ghost use Rattle.rules.specs.Port.{no_batch, capacity, row_sum, is_full};
ghost use Rattle.rules.specs.Machine.{queue_at, set_queue};
ghost use Rattle.batches.specs.Batch.{batch_of};
ghost use Rattle.tables.specs.Change.{Becomes};
ghost use Rattle.tables.specs.View.{view, Sized};
ghost use Rattle.tables.specs.Rings.{appended};

use crate::rings::{BATCHES, batch_place, load_ring, settle, store_ring};
use batches::Batch;
use queue::Queue;
use tables::front::machine;
use tables::{SlotPortIndex, StateBytes};

// How many batches wait in the port.
pub fn queue_len(s: &StateBytes, x: SlotPortIndex) -> usize
    ensures { result ≡ length (queue_at (view s.now) x.at) }
{
    load_ring(s, x).settled().len()
}

// How many rows wait in a port of the machine.
fn rows_in(s: &StateBytes, x: SlotPortIndex) -> usize
    ensures { result ≡ row_sum (queue_at (view s.now) x.at) }
{
    let n = queue_len(s, x);
    let mut rows = 0;
    for i in 0..n {
        rows += batch_at(s, x, i).rows as usize;
    }
    rows
}

// How many rows wait in the port, over all its batches: eight of them may have more than 32 bits hold.
pub fn queue_rows(s: &[u8], x: SlotPortIndex) -> usize
    requires sized { Sized s.now }
    ensures { result ≡ row_sum (queue_at (view s.now) x.at) }
{
    rows_in(machine(s), x)
}

// Whether a port of the machine is full.
fn full_in(s: &StateBytes, x: SlotPortIndex) -> bool
    ensures { result ≡ is_full capacity (queue_at (view s.now) x.at) }
{
    load_ring(s, x).settled().is_full(rows_in(s, x))
}

// Whether as many wait as may, batches or rows, so that its writer stops.
pub fn queue_full(s: &[u8], x: SlotPortIndex) -> bool
    requires sized { Sized s.now }
    ensures { result ≡ is_full capacity (queue_at (view s.now) x.at) }
{
    full_in(machine(s), x)
}

// The batch that is i behind the oldest.
pub fn batch_at(s: &StateBytes, x: SlotPortIndex, i: usize) -> Batch
    requires i_in_bounds { i < length (queue_at (view s.now) x.at) }
    ensures result_value { batch_of result ≡ get no_batch (queue_at (view s.now) x.at) i }
    ensures width_bound { result.width ≤ 4 }
{
    let q = load_ring(s, x);
    if !q.is_sound() {
        return Batch {
            rows: 0,
            width: 0,
            segment: [0; 4],
            first: [0; 4],
        };
    }
    let p = batch_place(x, q, i);
    let a = BATCHES + p * 37;
    tables::batch::get_batch(&s[a..a + 37])
}

// A batch goes behind the last, where there is room for it.
pub fn push_batch(s: &mut StateBytes, x: SlotPortIndex, b: Batch) -> bool
    requires width_bound { b.width ≤ 4 }
    ensures value { result ≡ ltb (length (queue_at (view s.old) x.at)) capacity }
    ensures becomes { Becomes (λ m. set_queue x.at (appended capacity (batch_of b) (queue_at m x.at)) m) s.old s.new }
{
    let q = settle(s, x);
    if !q.has_place() {
        return false;
    }
    let p = batch_place(x, q, q.len());
    let a = BATCHES + p * 37;
    tables::batch::put_batch(&mut s[a..a + 37], b);
    store_ring(s, x, q.pushed());
    true
}

// Another batch for the oldest.
pub fn replace_front(s: &mut StateBytes, x: SlotPortIndex, b: Batch)
    requires nonzero { 0 < length (queue_at (view s.old) x.at) }
    requires width_bound { b.width ≤ 4 }
    ensures { Becomes (λ m. set_queue x.at (batch_of b ∷ drop 1 (queue_at m x.at)) m) s.old s.new }
{
    let q = settle(s, x);
    let p = batch_place(x, q, 0);
    let a = BATCHES + p * 37;
    tables::batch::put_batch(&mut s[a..a + 37], b);
}

// No batch waits in the port: its queue is a fresh one.
pub fn clear_queue(s: &mut StateBytes, x: SlotPortIndex)
    ensures { Becomes (set_queue x.at []) s.old s.new }
{
    store_ring(s, x, Queue::new(Queue::DEFAULT_CAPACITY));
}

// The oldest batch goes.
pub fn pop_batch(s: &mut StateBytes, x: SlotPortIndex)
    ensures { Becomes (λ m. set_queue x.at (drop 1 (queue_at m x.at)) m) s.old s.new }
{
    let q = settle(s, x);
    if q.is_empty() {
        return;
    }
    store_ring(s, x, q.popped());
}
