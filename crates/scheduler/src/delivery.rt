// A delivery, and the step behind it.
ghost use Rattle.std.specs.Prelude.{◌≡◌, ℕ, ◌<◌, length, drop};
ghost use Rattle.std.proofs.Math.Option.{some};
ghost use Rattle.rules.specs.Table.{get};
ghost use Rattle.rules.specs.Machine.{no_read};
ghost use Rattle.rules.specs.Plan.{node_of};
ghost use Rattle.rules.specs.Scan as rule;
ghost use Rattle.numbers.specs.Opt.{option_of};
ghost use Rattle.table_pipes.specs.Source.{source_of};
ghost use Rattle.table_queues.specs.Read.{read_of};
ghost use Rattle.order.specs.Ranged.{Ranged};
ghost use Rattle.tables.specs.Change.{Becomes};
ghost use Rattle.tables.specs.View.{view, machine_len};
ghost use Rattle.scheduler.specs.Answers.{delivered_of, Fails, Delivering, Delivers};

use crate::stepping;
use jobs::Refusal;
use table_pipes::Source;
use table_queues::Read;
use tables::{MACHINE_LEN, PipeIndex, PublishedBytes, STATE_LEN, StateBytes};
use turn::Turn;

// A source whose bytes have come.
fn brought(x: Source) -> Source
    ensures { source_of result ≡ rule.brought (source_of x) }
{
    match x {
        Source::Segment(y) => Source::Segment(y.deliver()),
        Source::Concat(_) | Source::Pack => x,
    }
}

// The bytes reach the pipeline at a place.
fn bring_to(s: &mut StateBytes, p: PipeIndex)
    ensures { Becomes (rule.bring (some p.at)) s.old s.new }
{
    let x = table_pipes::source_table::load_source(s, p);
    table_pipes::source_table::store_source(s, p, brought(x));
    waking::ready::make_runnable(s, p);
}

// The bytes reach the pipeline that waits for them, if one does.
fn bring(s: &mut StateBytes, x: Option<u8>)
    requires by_index { (p : ℕ) → option_of x ≡ some p → p < 96 }
    ensures { Becomes (rule.bring (option_of x)) s.old s.new }
{
    match x {
        None => {}
        Some(p) => bring_to(s, PipeIndex { at: usize::from(p) }),
    }
}

// Read i, which is x, is delivered.
fn take_in(s: &mut StateBytes, i: usize, x: Read)
    requires i_in_bounds { i < length (view s.old).reads }
    requires ranged { Ranged (view s.old) }
    requires x_value { read_of x ≡ get no_read (view s.old).reads i }
    ensures { Becomes (rule.delivered i (read_of x)) s.old s.new }
{
    let y = Read {
        owner: None,
        delivered: true,
        ..x
    };
    table_queues::reads::store_read(s, i, y);
    bring(s, x.owner);
}

// A full table in a hand-made state, or the delivery is accepted.
fn faulted(s: &mut StateBytes) -> Result<(), Refusal>
    ensures s_after { delivered_of result (view s.new) ≡ rule.faulted (view s.old) }
    ensures fails { Fails result s.new }
    ensures s_unchanged { drop machine_len s.new ≡ drop machine_len s.old }
{
    if table_lists::counters::fault(s) {
        table_blank::zeros::clear(s);
        return Err(Refusal::Failed);
    }
    Ok(())
}

// The row count of a read's segment.
fn rows_of(s: &StateBytes, x: Read) -> u32
    ensures { result ≡ (node_of (view s.now).job x.leaf).rows }
{
    table_job::nodes::load_node(s, usize::from(x.leaf)).rows
}

// A delivery to a state that is in order, without the step behind it.
fn delivering(s: &mut StateBytes, read: u32, rows: u32) -> Result<(), Refusal>
    requires ranged { Ranged (view s.old) }
    ensures size { length s.new ≡ machine_len }
    ensures s_after { delivered_of result (view s.new) ≡ rule.delivering read rows (view s.old) }
    ensures delivering { Delivering s.old result s.new }
    ensures s_unchanged { drop machine_len s.new ≡ drop machine_len s.old }
{
    let i = read as usize;
    if table_queues::reads::read_count(s) <= i {
        return Err(Refusal::NotInFlight);
    }
    let x = table_queues::reads::load_read(s, i);
    if x.delivered {
        return Err(Refusal::NotInFlight);
    }
    if rows_of(s, x) != rows {
        return Err(Refusal::WrongRows);
    }
    take_in(s, i, x);
    faulted(s)
}

// The same on the machine at the front of a state.
fn delivering_in(s: &mut PublishedBytes, read: u32, rows: u32) -> Result<(), Refusal>
    requires ranged { Ranged (view s.old) }
    ensures s_after { delivered_of result (view s.new) ≡ rule.delivering read rows (view s.old) }
    ensures delivering { Delivering s.old result s.new }
    ensures s_unchanged { drop machine_len s.new ≡ drop machine_len s.old }
{
    delivering(s.first_chunk_mut::<MACHINE_LEN>().unwrap(), read, rows)
}

// A delivery to a state of its length, and once it is accepted the step behind it. A delivery keeps what check 12 asks, so that its step asks no
// second time.
fn deliver_in(s: &mut PublishedBytes, read: u32, rows: u32) -> Turn
    ensures { Delivers read rows s.old result s.new }
{
    if let Err(r) = check_state::check(s) {
        return Turn::Refused(r);
    }
    match delivering_in(s, read, rows) {
        Err(r) => stepping::hand_back(s, Turn::Refused(r)),
        Ok(()) => {
            let t = stepping::stepping_in(s);
            stepping::hand_back(s, t)
        }
    }
}

// The segment of a read has come with a number of rows: once accepted, the next turn of the scan. Refused are a state that is too short (1) or
// not in order (12), a read that is not in flight (10), and a row count that is not the segment's (11): no step is taken, and the state stays as
// it is. Refusals 13 and 14 leave it all zero.
pub fn deliver(s: &mut [u8], read: u32, rows: u32) -> Turn
    ensures { Delivers read rows s.old result s.new }
{
    let Some(state) = s.first_chunk_mut::<STATE_LEN>() else {
        return Turn::Refused(Refusal::StateTooShort);
    };
    deliver_in(state, read, rows)
}
