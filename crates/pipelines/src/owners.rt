// The reads that waited for a pipeline.
ghost use Rattle.std.specs.Prelude.{◌≡◌, map, ◌<◌, length, if◌then◌else◌};
ghost use Rattle.std.proofs.Math.Option.{none};
ghost use Rattle.rules.specs.Table.{get, put, is_some};
ghost use Rattle.rules.specs.Machine.{no_read, with_reads};
ghost use Rattle.rules.specs.Pipelines.{disowned};
ghost use Rattle.numbers.specs.Opt.{option_of};
ghost use Rattle.table_queues.specs.Read.{read_of};
ghost use Rattle.tables.specs.Change.{Becomes};
ghost use Rattle.tables.specs.View.{view};

use table_queues::Read;
use tables::StateBytes;

// An owner, unless it is the pipeline at p.
fn other_owner(x: Option<u8>, p: usize) -> Option<u8>
    ensures { option_of result ≡ (if is_some p (option_of x) then none else option_of x) }
{
    match x {
        None => x,
        Some(q) => { if p == usize::from(q) { None } else { x } }
    }
}

// A read that the pipeline at p waits for no more.
fn disowned(x: Read, p: usize) -> Read
    ensures { read_of result ≡ disowned p (read_of x) }
{
    Read {
        owner: other_owner(x.owner, p),
        ..x
    }
}

// One read of those that there are.
fn disown_read(s: &mut StateBytes, p: usize, i: usize)
    requires i_in_bounds { i < length (view s.old).reads }
    ensures { Becomes (λ m. with_reads (put no_read m.reads i (disowned p (get no_read m.reads i))) m) s.old s.new }
{
    let x = table_queues::reads::load_read(s, i);
    table_queues::reads::store_read(s, i, disowned(x, p));
}

// The reads that wait for a pipeline lose their owner.
pub(crate) fn disown(s: &mut StateBytes, p: usize)
    ensures { Becomes (λ m. with_reads (map (disowned p) m.reads) m) s.old s.new }
{
    for i in 0..table_queues::reads::read_count(s) {
        disown_read(s, p, i);
    }
}
