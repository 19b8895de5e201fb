// The reads, and those that are not told yet.
ghost use Rattle.std.specs.Prelude.{◌≡◌, true, ◌<◌, ltb, length};
ghost use Rattle.rules.specs.Table.{get, all};
ghost use Rattle.rules.specs.Machine.{no_read};
ghost use Rattle.rules.specs.Check.{is_source, owner_ok, read_ok};
ghost use Rattle.std.proofs.Math.Option.{some};
ghost use Rattle.numbers.specs.Opt.{option_of};
ghost use Rattle.table_pipes.specs.Source.{source_of};
ghost use Rattle.tables.specs.View.{view};
ghost use Rattle.check_job.specs.Seen.{Distinct};

use crate::first;
use table_pipes::Source;
use tables::{PipeIndex, StateBytes};

fn is_source(x: Source) -> bool
    ensures { result ≡ is_source (source_of x) }
{
    matches!(x, Source::Segment(_))
}

// Whether a live segment source stands at a place.
fn reader_ok(s: &StateBytes, p: usize) -> bool
    ensures { result ≡ owner_ok (view s.now) (some p) }
{
    p < 96
        && check_parts::entries::is_live(s, p)
        && is_source(table_pipes::source_table::load_source(s, PipeIndex { at: p }))
}

// The pipeline that waits for a read is a live segment source.
fn owner_ok(s: &StateBytes, x: Option<u8>) -> bool
    ensures { result ≡ owner_ok (view s.now) (option_of x) }
{
    match x {
        None => true,
        Some(p) => reader_ok(s, usize::from(p)),
    }
}

// A read is of a segment of the job, for a live segment source.
fn read_ok(s: &StateBytes, k: usize, distinct: bool) -> bool
    requires distinct { distinct ≡ true → Distinct (view s.now).job.nodes }
    requires k_in_bounds { k < length (view s.now).reads }
    ensures { result ≡ read_ok (view s.now) (get no_read (view s.now).reads k) }
{
    let x = table_queues::reads::load_read(s, k);
    first::is_first(s, usize::from(x.leaf), distinct) && owner_ok(s, x.owner)
}

// Every read.
pub(crate) fn reads_ok(s: &StateBytes, distinct: bool) -> bool
    requires distinct { distinct ≡ true → Distinct (view s.now).job.nodes }
    ensures { result ≡ all (read_ok (view s.now)) (view s.now).reads }
{
    for k in 0..table_queues::reads::read_count(s) {
        if !read_ok(s, k, distinct) {
            return false;
        }
    }
    true
}

// Every read that is not told yet is one of the reads.
pub(crate) fn news_ok(s: &StateBytes) -> bool
    ensures { result ≡ all (λ i. ltb i (length (view s.now).reads)) (view s.now).news }
{
    let reads = table_queues::reads::read_count(s);
    for k in 0..table_queues::news::new_len(s) {
        if reads <= table_queues::news::new_at(s, k) {
            return false;
        }
    }
    true
}
