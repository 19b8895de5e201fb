// The head and the count of a ring, which are its first two bytes, whatever its entries are.
ghost use Rattle.std.specs.Prelude.{◌≡◌, ◌≤◌, length, set};
ghost use Rattle.tables.specs.View.{ring_of};

use queue::Queue;

// The ring of so many places.
pub(crate) fn ring_of(r: &[u8], capacity: usize) -> Queue
    requires { 2 ≤ length r.now }
    ensures { result ≡ ring_of capacity r.now }
{
    Queue {
        head: r[0],
        count: r[1],
        capacity,
    }
}

// Another head and count.
pub(crate) fn put_ring(r: &mut [u8], q: Queue)
    requires { 2 ≤ length r.old }
    ensures { r.new ≡ set (set r.old 0 q.head) 1 q.count }
{
    r[0] = q.head;
    r[1] = q.count;
}
