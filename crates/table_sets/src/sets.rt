// Sets of inlets: how many, then the numbers, the oldest first. A pipeline has two: the inlets that it touched in this run, and those that changed.
// Each is one type here, which says where its table lies and which field of the machine it is; the functions are the same for both.
ghost use Rattle.std.specs.Prelude.{◌≡◌, [], ◌∷◌, ℕ, List, ◌+◌, ◌*◌, ◌≤◌, ◌<◌, length};
ghost use Rattle.rules.specs.Table.{get, is_empty};
ghost use Rattle.rules.specs.InletSet as rules;
ghost use Rattle.rules.specs.Machine.{Machine, set_touched, set_changed};
ghost use Rattle.inlet_set.specs.InletSet.{set_of};
ghost use Rattle.layout.specs.Numbers.{stack};
ghost use Rattle.tables.specs.Change.{Becomes};
ghost use Rattle.tables.specs.View.{view};
ghost use Rattle.table_sets.specs.Sets.{SetsLaws, touched_of, changed_of, touched_laws, changed_laws};

use inlet_set::InletSet;
use tables::{PipeIndex, StateBytes};

pub trait Sets {
    // Where the table begins.
    const FROM: usize;

    ghost FROM: { ℕ };

    // The field of the machine, and the machine with another set at a place.
    ghost of: { Machine → List rules.InletSet };

    ghost with: { ℕ → rules.InletSet → Machine → Machine };

    ghost laws: { SetsLaws FROM of with };
}

// The inlets that a pipeline touched.
pub struct Touched;

impl Sets for Touched {
    const FROM: usize = 9279;

    ghost FROM = { 9279 };

    ghost of = { touched_of };

    ghost with = { set_touched };

    ghost laws = { touched_laws };
}

// The inlets of a pipeline that changed.
pub struct Changed;

impl Sets for Changed {
    const FROM: usize = 11583;

    ghost FROM = { 11583 };

    ghost of = { changed_of };

    ghost with = { set_changed };

    ghost laws = { changed_laws };
}

// What a count past the table reads as: no inlet has this number.
fn no_set() -> InletSet
    ensures { set_of result ≡ 255 ∷ [] }
{
    InletSet {
        indices: [255; 23],
        len: 1,
    }
}

// What the bytes of a set say.
// kept: the count beside the numbers, in the bytes by docs/STATE.md, in `InletSet` for fixed memory.
pub(crate) fn get_set(r: &[u8]) -> InletSet
    requires r_nonzero { 0 < length r.now }
    requires r_len_bound { length r.now ≤ 24 }
    ensures { set_of result ≡ stack r.now }
{
    let n = usize::from(r[0]);
    if r.len() <= n {
        return no_set();
    }
    let mut indices = [0; 23];
    let m = r.len() - 1;
    indices[..m].copy_from_slice(&r[1..]);
    InletSet { indices, len: n }
}

// A set's bytes.
pub(crate) fn put_set(r: &mut [u8], x: InletSet)
    requires x_in_bounds { length (set_of x) < length r.old }
    requires r_len_bound { length r.old ≤ 24 }
    ensures { stack r.new ≡ set_of x }
{
    let n = x.len();
    let m = r.len() - 1;
    r[1..].copy_from_slice(&x.indices[..m]);
    r[0] = n as u8;
}

// Whether the set of the pipeline at a place is empty: the count says so.
pub fn is_empty<T: Sets>(s: &StateBytes, p: PipeIndex) -> bool
    ensures { result ≡ is_empty (get [] (T.of (view s.now)) p.at) }
{
    s[T::FROM + p.at * 24] == 0
}

// The set of the pipeline at a place.
pub fn load<T: Sets>(s: &StateBytes, p: PipeIndex) -> InletSet
    ensures { set_of result ≡ get [] (T.of (view s.now)) p.at }
{
    let a = T::FROM + p.at * 24;
    get_set(&s[a..a + 24])
}

// Another set at a place.
pub fn store<T: Sets>(s: &mut StateBytes, p: PipeIndex, x: InletSet)
    ensures { Becomes (T.with p.at (set_of x)) s.old s.new }
{
    let a = T::FROM + p.at * 24;
    put_set(&mut s[a..a + 24], x);
}
