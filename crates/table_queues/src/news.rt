// The reads that are not told yet.
ghost use Rattle.std.specs.Prelude.{◌≡◌, ◌<◌, ltb, length, drop};
ghost use Rattle.std.proofs.Math.ListN.{get_elem?};
ghost use Rattle.rules.specs.Table.{get};
ghost use Rattle.rules.specs.Machine.{with_news};
ghost use Rattle.numbers.specs.Opt.{option_of};
ghost use Rattle.tables.specs.Change.{Becomes};
ghost use Rattle.tables.specs.View.{view};
ghost use Rattle.tables.specs.Rings.{appended};

use crate::number_ring;
use tables::StateBytes;

// How many reads are not told yet.
pub fn new_len(s: &StateBytes) -> usize
    ensures { result ≡ length (view s.now).news }
{
    number_ring::count(&s[56..82])
}

// Entry k of them, from the oldest on.
pub fn new_at(s: &StateBytes, k: usize) -> usize
    requires k_in_bounds { k < length (view s.now).news }
    ensures { result ≡ get 0 (view s.now).news k }
{
    usize::from(number_ring::entry(&s[56..82], k))
}

// The oldest read that is not told yet.
pub fn next_new(s: &StateBytes) -> Option<u8>
    ensures { option_of result ≡ get_elem? (view s.now).news 0 }
{
    number_ring::first(&s[56..82])
}

// Without the oldest.
pub fn pop_new(s: &mut StateBytes)
    ensures { Becomes (λ m. with_news (drop 1 m.news) m) s.old s.new }
{
    number_ring::pop(&mut s[56..82]);
}

// One more; false where there are 24.
pub fn push_new(s: &mut StateBytes, p: u8) -> bool
    ensures value { result ≡ ltb (length (view s.old).news) 24 }
    ensures becomes { Becomes (λ m. with_news (appended 24 p m.news) m) s.old s.new }
{
    number_ring::push(&mut s[56..82], p)
}
