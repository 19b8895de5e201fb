// A pipeline's number, and its place on the ready stack.
ghost use Rattle.std.specs.Prelude.{◌≡◌, [], length};
ghost use Rattle.rules.specs.Machine.{pipe_at, set_pipe};
ghost use Rattle.rules.specs.Pipelines.{numbered, take_number, add};
ghost use Rattle.tables.specs.Change.{Becomes};
ghost use Rattle.tables.specs.View.{Sized, machine_len};

use table_lists::stacks::{self, Freed};
use tables::{MACHINE_LEN, PipeIndex, StateBytes};

// The pipeline at a place has this number.
fn number(s: &mut StateBytes, p: PipeIndex, n: u8)
    ensures { Becomes (λ m. set_pipe p.at (numbered n (pipe_at m p.at)) m) s.old s.new }
{
    let x = table_pipes::pipes::load_pipe(s, p);
    table_pipes::pipes::store_pipe(s, p, x.numbered(n));
}

// A number that was never in use.
fn next_number(s: &mut StateBytes, p: PipeIndex)
    ensures { Becomes (take_number p.at []) s.old s.new }
{
    let n = table_lists::counters::made(s);
    if 96 <= n {
        table_lists::causes::fault_if(s, true);
        return;
    }
    number(s, p, n);
    table_lists::counters::set_made(s, n + 1);
}

// The newest freed number, or a new one.
fn take_number(s: &mut StateBytes, p: PipeIndex)
    ensures { Becomes (λ m. take_number p.at m.freed m) s.old s.new }
{
    match stacks::newest::<Freed>(s) {
        None => next_number(s, p),
        Some(n) => {
            number(s, p, n);
            stacks::pop::<Freed>(s);
        }
    }
}

// The pipeline at a place gets its number and is to run.
fn number_and_wake(s: &mut StateBytes, p: PipeIndex)
    ensures size { length s.new ≡ machine_len }
    ensures becomes { Becomes (add p.at) s.old s.new }
{
    take_number(s, p);
    waking::ready::make_runnable(s, p);
}

// The same in any bytes that have a machine.
pub fn add(s: &mut [u8], p: PipeIndex)
    requires { Sized s.old }
    ensures { Becomes (add p.at) s.old s.new }
{
    number_and_wake(s.first_chunk_mut::<MACHINE_LEN>().unwrap(), p);
}
