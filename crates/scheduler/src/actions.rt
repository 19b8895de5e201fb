// What a step tries, one after another: what is tried says its answer, or nothing where an inner action was done.
ghost use Rattle.std.specs.Prelude.{◌≡◌, [], ◌<◌, length, drop};
ghost use Rattle.rules.specs.Scan.{from_ready, from_splits, from_dirty, from_reads, segment_of};
ghost use Rattle.order.specs.Ranged.{Ranged};
ghost use Rattle.tables.specs.Change.{Becomes};
ghost use Rattle.tables.specs.View.{view, machine_len};
ghost use Rattle.scheduler.specs.Answers.{inner_of, ZeroesInner};
ghost use Rattle.scheduler.specs.Turns.{Quiet, ran};

use crate::rest;
use table_lists::stacks::{self, Dirty, Ready};
use tables::{PipeIndex, SlotIndex, StateBytes};
use turn::Turn;

// A pipeline that was taken off the ready stack runs, if it lives.
fn run_next(s: &mut StateBytes, p: PipeIndex)
    requires ranged { Ranged (view s.old) }
    requires quiet { Quiet (view s.old) }
    ensures { Becomes (ran p.at) s.old s.new }
{
    let x = table_pipes::pipes::load_pipe(s, p);
    if x.live {
        table_pipes::pipes::store_pipe(s, p, x.with_queued(false));
        running::settling::run(s, p);
    }
}

// The newest ready pipeline, or nothing is left to do.
fn from_ready(s: &mut StateBytes) -> Option<Turn>
    requires ranged { Ranged (view s.old) }
    requires quiet { Quiet (view s.old) }
    ensures s_after { inner_of result (view s.new) ≡ from_ready (view s.old) }
    ensures zeroes_inner { ZeroesInner result s.new }
    ensures s_unchanged { drop machine_len s.new ≡ drop machine_len s.old }
{
    match stacks::newest::<Ready>(s) {
        None => Some(rest::at_rest(s)),
        Some(p) => {
            stacks::pop::<Ready>(s);
            run_next(s, PipeIndex { at: usize::from(p) });
            None
        }
    }
}

// A free slot and a next split.
fn from_splits(s: &mut StateBytes) -> Option<Turn>
    requires ranged { Ranged (view s.old) }
    requires quiet { Quiet (view s.old) }
    ensures s_after { inner_of result (view s.new) ≡ from_splits (view s.old) }
    ensures zeroes_inner { ZeroesInner result s.new }
    ensures s_unchanged { drop machine_len s.new ≡ drop machine_len s.old }
{
    if table_job::counts::split_count(s) <= usize::from(table_lists::counters::next(s)) {
        return from_ready(s);
    }
    match rest::first_free(s) {
        None => from_ready(s),
        Some(k) => {
            slots::activation::activate(s, SlotIndex { at: k });
            None
        }
    }
}

// The newest dirty slot.
fn from_dirty(s: &mut StateBytes) -> Option<Turn>
    requires ranged { Ranged (view s.old) }
    requires s_value { (view s.old).outputs ≡ [] }
    requires s_after { (view s.old).news ≡ [] }
    ensures s_after_2 { inner_of result (view s.new) ≡ from_dirty (view s.old) }
    ensures zeroes_inner { ZeroesInner result s.new }
    ensures s_unchanged { drop machine_len s.new ≡ drop machine_len s.old }
{
    match stacks::newest::<Dirty>(s) {
        None => from_splits(s),
        Some(k) => {
            stacks::pop::<Dirty>(s);
            slots::serving::advance(s, SlotIndex { at: usize::from(k) });
            None
        }
    }
}

// The segment of a read.
fn segment_of(s: &StateBytes, r: usize) -> u32
    requires r_in_bounds { r < length (view s.now).reads }
    ensures { result ≡ segment_of (view s.now) r }
{
    let x = table_queues::reads::load_read(s, r);
    table_job::nodes::load_node(s, usize::from(x.leaf)).segment
}

// A new read.
pub(crate) fn from_reads(s: &mut StateBytes) -> Option<Turn>
    requires ranged { Ranged (view s.old) }
    requires s_value { (view s.old).outputs ≡ [] }
    ensures s_after { inner_of result (view s.new) ≡ from_reads (view s.old) }
    ensures zeroes_inner { ZeroesInner result s.new }
    ensures s_unchanged { drop machine_len s.new ≡ drop machine_len s.old }
{
    match table_queues::news::next_new(s) {
        None => from_dirty(s),
        Some(r) => {
            let g = segment_of(s, usize::from(r));
            table_queues::news::pop_new(s);
            Some(Turn::Read(r, g))
        }
    }
}
