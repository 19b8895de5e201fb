// A pipeline's stage.
ghost use Rattle.std.specs.Prelude.{◌≡◌, ◌+◌, ◌*◌};
ghost use Rattle.rules.specs.Machine.{stage_at, set_stage};
ghost use Rattle.tables.specs.Change.{Becomes};
ghost use Rattle.tables.specs.View.{view};
ghost use Rattle.table_pipes.specs.Stage.{stage_of};

use layout::flags::option;
use tables::{PipeIndex, StateBytes};

const STAGES: usize = 4191;

// The runs cut of the batch that the cutting stage was last given, whether it continues, how many stages are finished since the
// source's end, and whether the source last said More.
#[derive(Clone, Copy)]
pub struct Stage {
    pub cut: Option<u8>,
    pub continuing: bool,
    pub finishing: Option<u8>,
    pub more: bool,
}

// The stage of the pipeline at a place.
pub fn load_stage(s: &StateBytes, p: PipeIndex) -> Stage
    ensures { stage_of result ≡ stage_at (view s.now) p.at }
{
    let a = STAGES + p.at * 6;
    Stage {
        cut: option(s[a], s[a + 1]),
        continuing: s[a + 2] != 0,
        finishing: option(s[a + 3], s[a + 4]),
        more: s[a + 5] != 0,
    }
}

// Another stage at a place.
pub fn store_stage(s: &mut StateBytes, p: PipeIndex, x: Stage)
    ensures { Becomes (set_stage p.at (stage_of x)) s.old s.new }
{
    let a = STAGES + p.at * 6;
    s[a..a + 6].copy_from_slice(&[
        u8::from(x.cut.is_some()),
        x.cut.unwrap_or(0),
        u8::from(x.continuing),
        u8::from(x.finishing.is_some()),
        x.finishing.unwrap_or(0),
        u8::from(x.more),
    ]);
}
