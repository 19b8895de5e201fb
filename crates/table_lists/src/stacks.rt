// The stacks of a state: the pipelines to run, the pipeline numbers that were freed, and the slots to look at. Each is one type here, which says
// where its bytes lie and which field of the machine they are; the functions are the same for all three.
ghost use Rattle.std.specs.Prelude.{◌≡◌, ℕ, List, ◌<◌, ltb, length, drop};
ghost use Rattle.std.proofs.Math.ListN.{get_elem?};
ghost use Rattle.rules.specs.Table.{get, has};
ghost use Rattle.rules.specs.Machine.{Machine, with_ready, with_freed, with_dirty};
ghost use Rattle.rules.specs.Pipelines.{without};
ghost use Rattle.numbers.specs.Opt.{option_of};
ghost use Rattle.layout.specs.Numbers.{stack};
ghost use Rattle.layout.specs.Stack.{pushed, Room};
ghost use Rattle.tables.specs.Change.{Becomes};
ghost use Rattle.tables.specs.View.{view};
ghost use Rattle.table_lists.specs.Stacks.{StackLaws, ready_of, freed_of, dirty_of, ready_laws, freed_laws, dirty_laws};

use crate::{entry, holds};
use layout::stack;
use tables::StateBytes;

pub trait Stack {
    // Where its bytes begin and end, and how many numbers it has room for.
    const FROM: usize;

    const TO: usize;

    ghost FROM: { ℕ };

    ghost TO: { ℕ };

    ghost places: { ℕ };

    // The field of the machine, and the machine with another.
    ghost of: { Machine → List ℕ };

    ghost with: { List ℕ → Machine → Machine };

    ghost laws: { StackLaws FROM TO places of with };
}

// The pipelines to run.
pub struct Ready;

impl Stack for Ready {
    const FROM: usize = 82;

    const TO: usize = 179;

    ghost FROM = { 82 };

    ghost TO = { 179 };

    ghost places = { 96 };

    ghost of = { ready_of };

    ghost with = { with_ready };

    ghost laws = { ready_laws };
}

// The pipeline numbers that were freed.
pub struct Freed;

impl Stack for Freed {
    const FROM: usize = 179;

    const TO: usize = 276;

    ghost FROM = { 179 };

    ghost TO = { 276 };

    ghost places = { 96 };

    ghost of = { freed_of };

    ghost with = { with_freed };

    ghost laws = { freed_laws };
}

// The slots to look at.
pub struct Dirty;

impl Stack for Dirty {
    const FROM: usize = 52;

    const TO: usize = 56;

    ghost FROM = { 52 };

    ghost TO = { 56 };

    ghost places = { 3 };

    ghost of = { dirty_of };

    ghost with = { with_dirty };

    ghost laws = { dirty_laws };
}

fn bytes<T: Stack>(s: &StateBytes) -> &[u8]
    ensures says { T.of (view s.now) ≡ stack result.now }
    ensures room { Room result.now }
{
    &s[T::FROM..T::TO]
}

// How many there are.
pub fn len<T: Stack>(s: &StateBytes) -> usize
    ensures { result ≡ length (T.of (view s.now)) }
{
    stack::len(bytes::<T>(s))
}

// The newest of them.
pub fn newest<T: Stack>(s: &StateBytes) -> Option<u8>
    ensures { option_of result ≡ get_elem? (T.of (view s.now)) 0 }
{
    stack::newest(bytes::<T>(s))
}

// Entry k of them, from the newest on.
pub fn at<T: Stack>(s: &StateBytes, k: usize) -> usize
    requires { k < length (T.of (view s.now)) }
    ensures { result ≡ get 0 (T.of (view s.now)) k }
{
    entry::entry(bytes::<T>(s), k)
}

// Whether a number is among them.
pub fn has<T: Stack>(s: &StateBytes, k: u8) -> bool
    ensures { result ≡ has k (T.of (view s.now)) }
{
    holds::holds(bytes::<T>(s), k)
}

// One more; false where there is no room.
// kept: a bool, which is the test itself.
pub fn push<T: Stack>(s: &mut StateBytes, x: u8) -> bool
    ensures value { result ≡ ltb (length (T.of (view s.old))) T.places }
    ensures becomes { Becomes (λ m. T.with (pushed x T.places (T.of m)) m) s.old s.new }
{
    stack::push(&mut s[T::FROM..T::TO], x)
}

// Without the newest.
pub fn pop<T: Stack>(s: &mut StateBytes)
    ensures { Becomes (λ m. T.with (drop 1 (T.of m)) m) s.old s.new }
{
    stack::pop(&mut s[T::FROM..T::TO]);
}

// Without a number, wherever it stands.
pub fn remove<T: Stack>(s: &mut StateBytes, x: u8)
    ensures { Becomes (λ m. T.with (without x (T.of m)) m) s.old s.new }
{
    stack::remove(&mut s[T::FROM..T::TO], x);
}
