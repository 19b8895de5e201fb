// The scan for programs in C and Rust: opening, step and delivery over bytes and numbers, each with the promise of `scheduler`'s function of that
// name and the answer read from its numbers (specs/Promises.antt). `bindings/c/ritsghule.h` declares them, `bindings/rust` wraps them; docs/REFUSALS.md
// says what each number means. None has a `requires`: whatever bytes are lent, each ends with an answer.
#![tactic(auto)]

ghost use Rattle.std.specs.Prelude.{◌≡◌};
ghost use Rattle.tables.specs.View.{state_len};
ghost use Rattle.ritsghule.specs.Promises.{OpensBy, StepsBy, DeliversBy};

// How many bytes a state takes.
#[unsafe(no_mangle)]
pub extern "C" fn ritsghule_state_len() -> usize
    ensures { result ≡ state_len }
{
    scheduler::STATE_LEN
}

// A scan is opened: 0, or the number of a refusal. The index of a run at fault, which 17 to 19 have, is written to `run`.
#[unsafe(no_mangle)]
pub extern "C" fn ritsghule_open(job: &[u8], state: &mut [u8], run: &mut u32) -> u8
    ensures { OpensBy job.now state.old run.old result state.new run.new }
{
    let x = scheduler::open(job, state);
    turn_numbers::refusal::opened(turn::tell_verdict(x), run)
}

// A step: 0 and the turn's numbers, or the number of a refusal. Without room for the numbers nothing is done.
#[unsafe(no_mangle)]
pub extern "C" fn ritsghule_step(state: &mut [u8], turn: &mut [u32]) -> u8
    ensures { StepsBy state.old turn.old result state.new turn.new }
{
    if turn.len() < turn_numbers::TURN_LEN {
        return turn_numbers::NO_ROOM;
    }
    let x = scheduler::step(state);
    turn_numbers::written::write(turn, turn::tell_turn(x))
}

// A delivery, and once it is accepted a step: answered as a step is.
#[unsafe(no_mangle)]
pub extern "C" fn ritsghule_deliver(state: &mut [u8], read: u32, rows: u32, turn: &mut [u32]) -> u8
    ensures { DeliversBy read rows state.old turn.old result state.new turn.new }
{
    if turn.len() < turn_numbers::TURN_LEN {
        return turn_numbers::NO_ROOM;
    }
    let x = scheduler::deliver(state, read, rows);
    turn_numbers::written::write(turn, turn::tell_turn(x))
}
