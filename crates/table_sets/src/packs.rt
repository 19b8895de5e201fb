// What a pack notes: the set of its inlets that wait, and a code for what each last showed.
ghost use Rattle.std.specs.Prelude.{◌≡◌, [], ◌+◌, ◌*◌, ◌≤◌, ◌<◌, ltb, length};
ghost use Rattle.rules.specs.Table.{get};
ghost use Rattle.rules.specs.Machine.{set_waits, set_seen};
ghost use Rattle.inlet_set.specs.InletSet.{set_of};
ghost use Rattle.queue.specs.Seen.{seen_of};
ghost use Rattle.pack_source.specs.Pack.{seen_in, view_of};
ghost use Rattle.tables.specs.Change.{Becomes};
ghost use Rattle.tables.specs.View.{view};
ghost use Rattle.table_sets.specs.Codes.{seen_from, counted, code_if};

use crate::sets::{get_set, put_set};
use inlet_set::InletSet;
use pack_source::PackSource;
use queue::Seen;
use tables::{PipeIndex, StateBytes};

const WAITS: usize = 13887;

const SEEN: usize = 14367;

// What a code says.
// kept: a number for a kind, since these are the bytes of docs/STATE.md.
fn seen_of(code: u8) -> Seen
    ensures { seen_of result ≡ seen_from code }
{
    match code {
        2 => Seen::Ready,
        3 => Seen::Ended,
        _ => Seen::Waiting,
    }
}

// One more than the rest, or none where a byte is no code.
fn counted(code: u8, rest: usize) -> usize
    requires { rest < 4 }
    ensures value { result ≡ counted code rest }
    ensures upper_bound { result ≤ rest + 1 }
{
    match code {
        1 | 2 | 3 => rest + 1,
        _ => 0,
    }
}

// The code of entry k of n.
fn code_if(x: Seen, k: usize, n: usize) -> u8
    ensures { result ≡ code_if (ltb k n) (seen_of x) }
{
    if n <= k {
        return 0;
    }
    match x {
        Seen::Waiting => 1,
        Seen::Ready => 2,
        Seen::Ended => 3,
    }
}

// The inlets that wait, of the pack at a place.
// kept: apart from the two tables of `sets`: records of another size, one reader and one writer.
fn load_waits(s: &StateBytes, p: PipeIndex) -> InletSet
    ensures { set_of result ≡ get [] (view s.now).waits p.at }
{
    let a = WAITS + p.at * 5;
    get_set(&s[a..a + 5])
}

// What the pack at a place notes.
pub fn load_pack(s: &StateBytes, p: PipeIndex) -> PackSource
    ensures { view_of result ≡ record { seen = get [] (view s.now).seen p.at; waits = get [] (view s.now).waits p.at } }
{
    let waiting = load_waits(s, p);
    let a = SEEN + p.at * 4;
    let b0 = s[a];
    let b1 = s[a + 1];
    let b2 = s[a + 2];
    let b3 = s[a + 3];
    let len = counted(b0, counted(b1, counted(b2, counted(b3, 0))));
    let shown = [seen_of(b0), seen_of(b1), seen_of(b2), seen_of(b3)];
    PackSource {
        shown,
        len,
        waiting,
    }
}

// Other inlets that wait.
fn store_waits(s: &mut StateBytes, p: PipeIndex, x: InletSet)
    requires x_len_bound { length (set_of x) ≤ 4 }
    ensures { Becomes (set_waits p.at (set_of x)) s.old s.new }
{
    let a = WAITS + p.at * 5;
    put_set(&mut s[a..a + 5], x);
}

// What the inlets last showed, of another pack.
fn store_seen(s: &mut StateBytes, p: PipeIndex, x: PackSource)
    ensures { Becomes (set_seen p.at (seen_in x)) s.old s.new }
{
    let n = x.len;
    let a = SEEN + p.at * 4;
    s[a..a + 4].copy_from_slice(&[
        code_if(x.shown[0], 0, n),
        code_if(x.shown[1], 1, n),
        code_if(x.shown[2], 2, n),
        code_if(x.shown[3], 3, n),
    ]);
}

// Another pack at a place, of which at most 4 inlets wait.
pub fn store_pack(s: &mut StateBytes, p: PipeIndex, x: PackSource)
    requires waiting_len_bound { length (set_of x.waiting) ≤ 4 }
    ensures { Becomes (λ m. set_seen p.at (seen_in x) (set_waits p.at (set_of x.waiting) m)) s.old s.new }
{
    store_waits(s, p, x.waiting);
    store_seen(s, p, x);
}
