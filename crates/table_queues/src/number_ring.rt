// A ring of small numbers in 26 bytes: its head, how many, then 24 places. Out of its range it reads as one number that no check accepts.
ghost use Rattle.std.specs.Prelude.{◌≡◌, true, ◌<◌, ltb, length, drop};
ghost use Rattle.std.proofs.Math.ListN.{get_elem?};
ghost use Rattle.rules.specs.Table.{get};
ghost use Rattle.queue.specs.Queue.{sound};
ghost use Rattle.numbers.specs.Opt.{option_of};
ghost use Rattle.tables.specs.View.{ring_of, news_from};
ghost use Rattle.tables.specs.Rings.{appended};

use crate::ring::{put_ring, ring_of};
use queue::Queue;

// kept: output_ring.rt has these moves on records; one ring over both would take how an entry is read, written and stands for a bad ring.
const PLACES: usize = 24;

// Out of its range it becomes the number that it reads as.
fn settle(r: &mut [u8]) -> Queue
    requires { length r.old ≡ 26 }
    ensures r_unchanged { news_from r.new ≡ news_from r.old }
    ensures value { result ≡ ring_of 24 r.new }
    ensures result_value { sound result ≡ true }
{
    let q = ring_of(r, PLACES);
    if q.is_sound() {
        return q;
    }
    let one = q.settled();
    put_ring(r, one);
    r[2] = 255;
    one
}

// How many.
pub(crate) fn count(r: &[u8]) -> usize
    requires { length r.now ≡ 26 }
    ensures { result ≡ length (news_from r.now) }
{
    ring_of(r, PLACES).settled().len()
}

// Entry k, from the oldest on.
pub(crate) fn entry(r: &[u8], k: usize) -> u8
    requires r_len { length r.now ≡ 26 }
    requires k_in_bounds { k < length (news_from r.now) }
    ensures { result ≡ get 0 (news_from r.now) k }
{
    let q = ring_of(r, PLACES);
    if !q.is_sound() {
        return 255;
    }
    r[2 + q.place(k)]
}

// The oldest.
pub(crate) fn first(r: &[u8]) -> Option<u8>
    requires { length r.now ≡ 26 }
    ensures { option_of result ≡ get_elem? (news_from r.now) 0 }
{
    if count(r) == 0 {
        return None;
    }
    Some(entry(r, 0))
}

// Without the oldest.
pub(crate) fn pop(r: &mut [u8])
    requires { length r.old ≡ 26 }
    ensures { news_from r.new ≡ drop 1 (news_from r.old) }
{
    let q = settle(r);
    if q.is_empty() {
        return;
    }
    put_ring(r, q.popped());
}

// One more, behind the newest; false where the places are full.
pub(crate) fn push(r: &mut [u8], x: u8) -> bool
    requires { length r.old ≡ 26 }
    ensures value { result ≡ ltb (length (news_from r.old)) 24 }
    ensures r_after { news_from r.new ≡ appended 24 x (news_from r.old) }
{
    let q = settle(r);
    if !q.has_place() {
        return false;
    }
    let at = 2 + q.place(q.len());
    r[at] = x;
    r[1] = q.pushed().count;
    true
}
