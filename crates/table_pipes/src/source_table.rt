// A pipeline's source.
ghost use Rattle.std.specs.Prelude.{◌≡◌, ◌+◌, ◌*◌};
ghost use Rattle.rules.specs.Machine.{source_at, set_source};
ghost use Rattle.tables.specs.Decode.{source_from, source};
ghost use Rattle.tables.specs.Change.{Becomes};
ghost use Rattle.tables.specs.View.{view};
ghost use Rattle.table_pipes.specs.Source.{source_of};

use concat_source::ConcatSource;
use segment_source::SegmentSource;
use tables::{PipeIndex, StateBytes};

const SOURCES: usize = 3807;

// Where a pipeline's rows come from. What a pack notes stands in tables of its own.
#[derive(Clone, Copy)]
pub enum Source {
    Segment(SegmentSource),
    Concat(ConcatSource),
    Pack,
}

// What the bytes of a source say.
// kept: a number for a kind, since these are the bytes of docs/STATE.md.
fn source_of(tag: u8, asked: u8, bytes: u8, number: u8) -> Source
    ensures { source_of result ≡ source_from tag asked bytes number }
{
    match tag {
        0 => Source::Segment(SegmentSource {
            asked: asked != 0,
            bytes: bytes != 0,
            emitted: number,
        }),
        1 => Source::Concat(ConcatSource { current: number }),
        2 => Source::Pack,
        _ => Source::Segment(SegmentSource {
            asked: false,
            bytes: false,
            emitted: 255,
        }),
    }
}

// The four bytes of a source.
fn source_bytes(x: Source) -> [u8; 4]
    ensures { source result ≡ source_of x }
{
    match x {
        Source::Segment(y) => [0, u8::from(y.asked), u8::from(y.bytes), y.emitted],
        Source::Concat(y) => [1, 0, 0, y.current],
        Source::Pack => [2, 0, 0, 0],
    }
}

// The source of the pipeline at a place.
pub fn load_source(s: &StateBytes, p: PipeIndex) -> Source
    ensures { source_of result ≡ source_at (view s.now) p.at }
{
    let a = SOURCES + p.at * 4;
    source_of(s[a], s[a + 1], s[a + 2], s[a + 3])
}

// Another source at a place.
pub fn store_source(s: &mut StateBytes, p: PipeIndex, x: Source)
    ensures { Becomes (set_source p.at (source_of x)) s.old s.new }
{
    let a = SOURCES + p.at * 4;
    s[a..a + 4].copy_from_slice(&source_bytes(x));
}
