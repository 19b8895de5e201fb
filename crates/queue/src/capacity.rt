// The queue of a port, a ring: what waits lies in the state, the oldest at the head, each next one a place further on, and behind the last place
// comes the first.
ghost use Rattle.std.specs.Prelude.{◌≡◌, ◌||◌, ◌<◌, ◌≤◌, eqb, leb, ltb};
ghost use Rattle.rules.specs.Port.{raised, row_limit};
ghost use Rattle.queue.specs.Queue.{fresh, sound, settled, place_of, pushed, popped};

// Where the oldest stands, how many wait, and how many may: the ring has as many places.
#[derive(Clone, Copy)]
pub struct Queue {
    pub head: u8,
    pub count: u8,
    pub capacity: usize,
}

// Capacity 0 becomes 1.
// kept: by arithmetic without a branch, as document 02 (d) has it. The quotient is 1 for capacity 0, and 0 for every other.
fn at_least_one(capacity: usize) -> usize
    ensures { result ≡ raised capacity }
{
    capacity + (Queue::NO_LIMIT - capacity) / Queue::NO_LIMIT
}

impl Queue {
    // What waits in a joined port or a slot's port before its writer stops.
    pub const DEFAULT_CAPACITY: usize = 8;

    // So many rows stop it too, however few their batches.
    pub const ROW_LIMIT: usize = 65536;

    // A shared source's ports have no limit.
    pub const NO_LIMIT: usize = 18446744073709551615;

    // A fresh queue: nothing waits. Capacity 0 becomes 1.
    pub fn new(capacity: usize) -> Queue
        ensures { result ≡ fresh capacity }
    {
        Queue {
            head: 0,
            count: 0,
            capacity: at_least_one(capacity),
        }
    }

    // Whether the head is one of the places, and no more wait than may. A queue that was read from bytes need not be so.
    pub fn is_sound(self) -> bool
        ensures { result ≡ sound self }
    {
        usize::from(self.head) < self.capacity && usize::from(self.count) <= self.capacity
    }

    // A queue that is so: one thing waits in one that was not, at the first place.
    pub fn settled(self) -> Queue
        ensures { result ≡ settled self }
    {
        if self.is_sound() {
            self
        } else {
            Queue {
                head: 0,
                count: 1,
                ..self
            }
        }
    }

    // How many wait.
    pub fn len(self) -> usize
        ensures { result ≡ self.count }
    {
        usize::from(self.count)
    }

    // Whether nothing waits.
    pub fn is_empty(self) -> bool
        ensures { result ≡ eqb self.count 0 }
    {
        self.count == 0
    }

    // Whether there is a place for one more.
    pub fn has_place(self) -> bool
        ensures { result ≡ ltb self.count self.capacity }
    {
        usize::from(self.count) < self.capacity
    }

    // Whether as many wait as may, or so many rows with them, that the writer stops. It is asked before one more comes, whatever rows that has.
    pub fn is_full(self, rows: usize) -> bool
        ensures { result ≡ (leb self.capacity self.count || leb row_limit rows) }
    {
        usize::from(self.count) >= self.capacity || rows >= Queue::ROW_LIMIT
    }

    // Where the one i behind the oldest stands; behind them all, where the next one will.
    pub fn place(self, i: usize) -> usize
        requires i_le_count { i ≤ self.count }
        requires capacity_nonzero { 0 < self.capacity }
        ensures value { result ≡ place_of self i }
        ensures upper_bound { result < self.capacity }
    {
        (usize::from(self.head) + i) % self.capacity
    }

    // One more waits.
    pub fn pushed(self) -> Queue
        requires { self.count < 255 }
        ensures { result ≡ pushed self }
    {
        Queue {
            count: self.count + 1,
            ..self
        }
    }

    // The oldest has gone.
    pub fn popped(self) -> Queue
        requires count_nonzero { 0 < self.count }
        requires head_bound { self.head < 255 }
        requires capacity_nonzero { 0 < self.capacity }
        ensures { result ≡ popped self }
    {
        Queue {
            head: self.place(1) as u8,
            count: self.count - 1,
            ..self
        }
    }
}
