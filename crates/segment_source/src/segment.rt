// The source of one segment's kept runs.
ghost use Rattle.std.specs.Prelude.{◌≡◌, false};
ghost use Rattle.rules.specs.Operators.{bytes_came, segment_ready};
ghost use Rattle.rules.specs.Scan.{brought};
ghost use Rattle.operator.specs.Answer.{ready_of};
ghost use Rattle.segment_source.specs.Segment.{source_of, Tests, Emits};

use crate::pieces::Pieces;
use operator::{SourceBlocked, SourceReady, Step};

// `asked`: the read is requested. `bytes`: they have come and are not used yet. `emitted`: how many runs.
#[derive(Clone, Copy)]
pub struct SegmentSource {
    pub asked: bool,
    pub bytes: bool,
    pub emitted: u8,
}

// `asks`: a read is to be requested now.
#[derive(Clone, Copy)]
pub struct SegmentTest {
    pub ready: SourceReady,
    pub asks: bool,
    pub source: SegmentSource,
}

// A source that has asked and whose bytes have come is ready.
fn tested(source: SegmentSource) -> SourceReady
    ensures { ready_of result ≡ segment_ready source.asked source.bytes source.emitted }
{
    if source.asked && source.came() {
        SourceReady::Ready
    } else {
        SourceReady::Blocked(SourceBlocked::Io)
    }
}

impl SegmentSource {
    // The first test asks for the read.
    pub fn ready(self) -> SegmentTest
        ensures { Tests self result }
    {
        SegmentTest {
            ready: tested(self),
            asks: !self.asked,
            source: SegmentSource {
                asked: true,
                ..self
            },
        }
    }

    // Whether the bytes have come: they are there, or a run was emitted of them.
    pub fn came(self) -> bool
        ensures { result ≡ bytes_came self.bytes self.emitted }
    {
        self.bytes || self.emitted > 0
    }

    // The bytes come.
    pub fn deliver(self) -> SegmentSource
        ensures { source_of result ≡ brought (source_of self) }
    {
        SegmentSource {
            bytes: true,
            ..self
        }
    }

    // The next run. Behind the last nothing changes.
    pub fn compute(self, pieces: Pieces) -> (Step, SegmentSource)
        ensures { Emits self pieces result.0 result.1 }
    {
        let k = usize::from(self.emitted);
        let step = pieces.emit(k);
        if k >= pieces.len() {
            return (step, self);
        }
        let source = SegmentSource {
            bytes: false,
            emitted: self.emitted + 1,
            ..self
        };
        (step, source)
    }
}
