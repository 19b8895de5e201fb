// A step.
ghost use Rattle.std.specs.Prelude.{◌≡◌, ◌<◌, length, drop};
ghost use Rattle.rules.specs.Machine.{zeroed};
ghost use Rattle.rules.specs.Drive.{patience};
ghost use Rattle.rules.specs.Scan as rule;
ghost use Rattle.order.specs.Ranged.{Ranged};
ghost use Rattle.tables.specs.View.{view, machine_len};
ghost use Rattle.scheduler.specs.Answers.{turn_of, Zeroes, is_last, Clears, Steps};

use crate::actions;
use jobs::Refusal;
use tables::{MACHINE_LEN, PublishedBytes, STATE_LEN, StateBytes};
use turn::Turn;

// The oldest output that is held.
fn put_out(s: &mut StateBytes) -> Turn
    requires outputs_nonzero { 0 < length (view s.old).outputs }
    ensures s_after { rule.answers (turn_of result (view s.new)) ≡ rule.inner (view s.old) }
    ensures zeroes { Zeroes result s.new }
    ensures s_unchanged { drop machine_len s.new ≡ drop machine_len s.old }
{
    let o = table_queues::outputs::first_output(s);
    table_queues::outputs::pop_output(s);
    Turn::Output(o.split, o.batch)
}

// A cause of refusal 14.
fn fail(s: &mut StateBytes) -> Turn
    ensures s_after { turn_of result (view s.new) ≡ rule.refuses 14 zeroed }
    ensures zeroes { Zeroes result s.new }
    ensures s_unchanged { drop machine_len s.new ≡ drop machine_len s.old }
{
    table_blank::zeros::clear(s);
    Turn::Refused(Refusal::Failed)
}

// Inner actions until there is an answer.
fn stepping(s: &mut StateBytes) -> Turn
    requires ranged { Ranged (view s.old) }
    ensures size { length s.new ≡ machine_len }
    ensures s_after { turn_of result (view s.new) ≡ rule.stepping patience (view s.old) }
    ensures zeroes { Zeroes result s.new }
    ensures s_unchanged { drop machine_len s.new ≡ drop machine_len s.old }
{
    loop {
        if 0 < table_queues::outputs::output_len(s) {
            return put_out(s);
        }
        if let Some(t) = actions::from_reads(s) {
            return t;
        }
        if table_lists::counters::fault(s) {
            return fail(s);
        }
    }
}

// The same on the machine at the front of a state.
pub(crate) fn stepping_in(s: &mut PublishedBytes) -> Turn
    requires ranged { Ranged (view s.old) }
    ensures s_after { turn_of result (view s.new) ≡ rule.stepping patience (view s.old) }
    ensures zeroes { Zeroes result s.new }
    ensures s_unchanged { drop machine_len s.new ≡ drop machine_len s.old }
{
    stepping(s.first_chunk_mut::<MACHINE_LEN>().unwrap())
}

// Whether a turn is a refusal after which nothing is left: 13 or 14.
fn is_last(t: Turn) -> bool
    ensures { result ≡ is_last t }
{
    matches!(t, Turn::Refused(r) if 13 <= r.number())
}

// An answer is handed back: where it leaves nothing of the machine, the numbers behind it go too.
pub(crate) fn hand_back(s: &mut PublishedBytes, t: Turn) -> Turn
    ensures value { result ≡ t }
    ensures clears { Clears (is_last t) s.old s.new }
{
    if is_last(t) {
        table_blank::labels::store_labels(s, [0u8; 24]);
    }
    t
}

// The next turn of a scan in a state of its length.
fn step_in(s: &mut PublishedBytes) -> Turn
    ensures { Steps s.old result s.new }
{
    if let Err(r) = check_state::check(s) {
        return Turn::Refused(r);
    }
    let t = stepping_in(s);
    hand_back(s, t)
}

// The next turn of a scan. A state that is too short is refused by 1, one that is not in order by 12: both stay as they are. Refusals 13
// and 14 leave the state all zero.
pub fn step(s: &mut [u8]) -> Turn
    ensures { Steps s.old result s.new }
{
    let Some(state) = s.first_chunk_mut::<STATE_LEN>() else {
        return Turn::Refused(Refusal::StateTooShort);
    };
    step_in(state)
}
