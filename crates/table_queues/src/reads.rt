// The reads of a state, by read number.
ghost use Rattle.std.specs.Prelude.{◌≡◌, ◌<◌, ltb, length};
ghost use Rattle.rules.specs.Table.{get, put};
ghost use Rattle.rules.specs.Machine.{no_read, with_reads};
ghost use Rattle.tables.specs.Change.{Becomes};
ghost use Rattle.tables.specs.View.{view};
ghost use Rattle.tables.specs.Rings.{appended};
ghost use Rattle.table_queues.specs.Read.{read_of};

use crate::read_list;
use crate::read_list::Read;
use tables::{ReadIndex, StateBytes};

// How many reads there are.
pub fn read_count(s: &StateBytes) -> usize
    ensures { result ≡ length (view s.now).reads }
{
    read_list::count(&s[276..373])
}

// A read.
pub fn load_read(s: &StateBytes, i: usize) -> Read
    requires i_in_bounds { i < length (view s.now).reads }
    ensures { read_of result ≡ get no_read (view s.now).reads i }
{
    read_list::load(&s[276..373], ReadIndex { at: i })
}

// Another read at a number.
pub fn store_read(s: &mut StateBytes, i: usize, x: Read)
    requires i_in_bounds { i < length (view s.old).reads }
    ensures { Becomes (λ m. with_reads (put no_read m.reads i (read_of x)) m) s.old s.new }
{
    read_list::store(&mut s[276..373], ReadIndex { at: i }, x);
}

// One read more; false where there are 24.
pub fn push_read(s: &mut StateBytes, x: Read) -> bool
    ensures value { result ≡ ltb (length (view s.old).reads) 24 }
    ensures becomes { Becomes (λ m. with_reads (appended 24 (read_of x) m.reads) m) s.old s.new }
{
    read_list::push(&mut s[276..373], x)
}
