// The ring of a bounded port: two bytes say where its oldest batch stands and how many there are. Its places are its part of the table of batches.
ghost use Rattle.std.specs.Prelude.{◌≡◌, true, [], ◌∷◌, ◌+◌, ◌*◌, ◌≤◌, ◌<◌, take, drop};
ghost use Rattle.rules.specs.Port.{capacity};
ghost use Rattle.queue.specs.Queue.{sound, place_of};
ghost use Rattle.layout.specs.Stored.{lent};
ghost use Rattle.tables.specs.View.{ring_of, view, machine_len};

use queue::Queue;
use tables::{SlotPortIndex, StateBytes};

pub(crate) const RINGS: usize = 17487;

pub(crate) const BATCHES: usize = 18015;

// Which of all batches is the one i behind the oldest of port x.
pub(crate) fn batch_place(x: SlotPortIndex, q: Queue, i: usize) -> usize
    requires i_le_count { i ≤ q.count }
    requires capacity_value { q.capacity ≡ capacity }
    ensures value { result ≡ capacity * x.at + place_of q i }
    ensures upper_bound { result < 576 }
{
    Queue::DEFAULT_CAPACITY * x.at + q.place(i)
}

// The ring of port x.
pub(crate) fn load_ring(s: &StateBytes, x: SlotPortIndex) -> Queue
    ensures { result ≡ ring_of capacity (take 2 (drop (17487 + x.at * 2) s.now)) }
{
    let a = RINGS + x.at * 2;
    Queue {
        head: s[a],
        count: s[a + 1],
        capacity: Queue::DEFAULT_CAPACITY,
    }
}

// Another ring of port x.
pub(crate) fn store_ring(s: &mut StateBytes, x: SlotPortIndex, q: Queue)
    ensures { s.new ≡ lent 17487 2 x.at s.old (q.head ∷ q.count ∷ []) }
{
    let a = RINGS + x.at * 2;
    s[a..a + 2].copy_from_slice(&[q.head, q.count]);
}

// The ring of port x, which is made to hold one batch without rows where it is out of its range: it reads so.
pub(crate) fn settle(s: &mut StateBytes, x: SlotPortIndex) -> Queue
    ensures s_unchanged { view s.new ≡ view s.old }
    ensures s_unchanged_2 { drop machine_len s.new ≡ drop machine_len s.old }
    ensures value { result ≡ ring_of capacity (take 2 (drop (17487 + x.at * 2) s.new)) }
    ensures result_value { sound result ≡ true }
{
    let q = load_ring(s, x);
    if q.is_sound() {
        return q;
    }
    let one = q.settled();
    let a = BATCHES + Queue::DEFAULT_CAPACITY * x.at * 37;
    s[a..a + 37].copy_from_slice(&[0; 37]);
    store_ring(s, x, one);
    one
}
