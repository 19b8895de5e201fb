// A pipeline goes.
ghost use Rattle.std.specs.Prelude.{◌≡◌, ◌∷◌, map, ◌<◌, leb, length, if◌then◌else◌};
ghost use Rattle.rules.specs.Machine.{pipe_at, inlets_at, set_pipe, with_ready, with_freed, with_reads, fault_if};
ghost use Rattle.rules.specs.Pipelines.{disowned, gone, retire, without};
ghost use Rattle.laws.specs.Rows.{All};
ghost use Rattle.tables.specs.Change.{Becomes};
ghost use Rattle.tables.specs.View.{view, Sized, machine_len};

use crate::{owners, readers};
use table_lists::stacks::{self, Freed, Ready};
use tables::{MACHINE_LEN, PipeIndex, StateBytes};

// A number is freed; a cause of 14 where there is no place for it.
fn free_number(s: &mut StateBytes, n: u8)
    ensures { Becomes (λ m. fault_if (leb 96 (length m.freed)) (with_freed (if leb 96 (length m.freed) then m.freed else n ∷ m.freed) m))
        s.old s.new }
{
    let room = stacks::push::<Freed>(s, n);
    table_lists::causes::fault_if(s, !room);
}

// The place is free, and no read waits for it.
fn leave(s: &mut StateBytes, p: PipeIndex)
    ensures { Becomes (λ m. with_reads (map (disowned p.at) m.reads) (set_pipe p.at (gone (pipe_at m p.at)) m)) s.old s.new }
{
    let x = table_pipes::pipes::load_pipe(s, p);
    table_pipes::pipes::store_pipe(s, p, x.gone());
    owners::disown(s, p.at);
}

// The pipeline at a place goes: its inlets lose their reader, its number is freed, and no read waits for it.
pub fn retire(s: &mut StateBytes, p: PipeIndex)
    requires all { All (λ x. x < 456) (inlets_at (view s.old) p.at) }
    ensures { Becomes (retire p.at) s.old s.new }
{
    let x = table_pipes::pipes::load_pipe(s, p);
    readers::drop_inlets(s, p);
    leave(s, p);
    free_number(s, x.number);
}

// It leaves the ready stack, and goes.
fn leave_ready_and_retire(s: &mut StateBytes, p: PipeIndex)
    requires all { All (λ x. x < 456) (inlets_at (view s.old) p.at) }
    ensures size { length s.new ≡ machine_len }
    ensures becomes { Becomes (λ m. retire p.at (with_ready (without p.at m.ready) m)) s.old s.new }
{
    stacks::remove::<Ready>(s, p.at as u8);
    retire(s, p);
}

// The same in any bytes that have a machine.
pub fn withdraw(s: &mut [u8], p: PipeIndex)
    requires sized { Sized s.old }
    requires all { All (λ x. x < 456) (inlets_at (view s.old) p.at) }
    ensures { Becomes (λ m. retire p.at (with_ready (without p.at m.ready) m)) s.old s.new }
{
    leave_ready_and_retire(s.first_chunk_mut::<MACHINE_LEN>().unwrap(), p);
}
