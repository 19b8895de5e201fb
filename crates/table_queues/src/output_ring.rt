// A ring of outputs in 306 bytes: its head, how many, then as many records as a port has places. Out of its range it reads as one output that no
// check accepts.
ghost use Rattle.std.specs.Prelude.{◌≡◌, true, ◌≤◌, ◌<◌, ltb, length, drop};
ghost use Rattle.rules.specs.Table.{get};
ghost use Rattle.rules.specs.Port.{capacity};
ghost use Rattle.queue.specs.Queue.{sound};
ghost use Rattle.tables.specs.Decode.{output};
ghost use Rattle.tables.specs.Outputs.{outputs_in, outputs_ring, no_output};
ghost use Rattle.tables.specs.Rings.{appended};
ghost use Rattle.table_queues.specs.Output.{output_of};

use crate::ring::{put_ring, ring_of};
use batches::Batch;
use queue::Queue;

// A batch that a split puts out.
#[derive(Clone, Copy)]
pub struct Output {
    pub split: u8,
    pub batch: Batch,
}

// The output of a record.
fn load(r: &[u8]) -> Output
    requires { length r.now ≡ 38 }
    ensures result_value { output_of result ≡ output r.now }
    ensures width_bound { result.batch.width ≤ 4 }
{
    Output {
        split: r[0],
        batch: tables::batch::get_batch(&r[1..38]),
    }
}

// An output into its record.
fn store(r: &mut [u8], x: Output)
    requires r_len { length r.old ≡ 38 }
    requires width_bound { x.batch.width ≤ 4 }
    ensures { output r.new ≡ output_of x }
{
    tables::batch::put_batch(&mut r[1..38], x.batch);
    r[0] = x.split;
}

// Out of its range it becomes the output that it reads as: a record with too many columns has an empty batch.
fn settle(r: &mut [u8]) -> Queue
    requires { length r.old ≡ 306 }
    ensures r_unchanged { outputs_in r.new ≡ outputs_in r.old }
    ensures value { result ≡ outputs_ring r.new }
    ensures result_value { sound result ≡ true }
{
    let q = ring_of(r, Queue::DEFAULT_CAPACITY);
    if q.is_sound() {
        return q;
    }
    let one = q.settled();
    let bad = [one.head, one.count, 255, 255];
    r[0..4].copy_from_slice(&bad);
    one
}

// How many.
pub(crate) fn count(r: &[u8]) -> usize
    requires { length r.now ≡ 306 }
    ensures { result ≡ length (outputs_in r.now) }
{
    ring_of(r, Queue::DEFAULT_CAPACITY).settled().len()
}

// Entry k, from the oldest on.
pub(crate) fn entry(r: &[u8], k: usize) -> Output
    requires r_len { length r.now ≡ 306 }
    requires k_in_bounds { k < length (outputs_in r.now) }
    ensures result_value { output_of result ≡ get no_output (outputs_in r.now) k }
    ensures width_bound { result.batch.width ≤ 4 }
{
    let q = ring_of(r, Queue::DEFAULT_CAPACITY);
    if !q.is_sound() {
        let batch = Batch {
            rows: 0,
            width: 0,
            segment: [0; 4],
            first: [0; 4],
        };
        return Output { split: 255, batch };
    }
    let a = 2 + q.place(k) * 38;
    load(&r[a..a + 38])
}

// Without the oldest.
pub(crate) fn pop(r: &mut [u8])
    requires { length r.old ≡ 306 }
    ensures { outputs_in r.new ≡ drop 1 (outputs_in r.old) }
{
    let q = settle(r);
    if q.is_empty() {
        return;
    }
    put_ring(r, q.popped());
}

// One more, behind the newest; false where the places are full.
pub(crate) fn push(r: &mut [u8], x: Output) -> bool
    requires r_len { length r.old ≡ 306 }
    requires width_bound { x.batch.width ≤ 4 }
    ensures value { result ≡ ltb (length (outputs_in r.old)) capacity }
    ensures r_after { outputs_in r.new ≡ appended capacity (output_of x) (outputs_in r.old) }
{
    let q = settle(r);
    if !q.has_place() {
        return false;
    }
    let a = 2 + q.place(q.len()) * 38;
    store(&mut r[a..a + 38], x);
    r[1] = q.pushed().count;
    true
}
