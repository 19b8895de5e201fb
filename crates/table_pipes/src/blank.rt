// Many pipelines at a time: where all their bytes are 0, none of them lives.
ghost use Rattle.std.specs.Prelude.{◌≡◌, true, ◌+◌, ◌*◌, ◌≤◌};
ghost use Rattle.layout.specs.Blank.{blank};
ghost use Rattle.layout.specs.Cut.{cut};
ghost use Rattle.tables.specs.View.{view};
ghost use Rattle.table_pipes.specs.Blank.{NoPipes};

use crate::pipes::PIPES;
use tables::StateBytes;

// Whether the bytes of the n pipelines from p on are 0.
pub fn blank_pipes(s: &StateBytes, p: usize, n: usize) -> bool
    requires n_bound { p + n ≤ 96 }
    ensures value { result ≡ blank (cut (3327 + p * 5) (3327 + p * 5 + n * 5) s.now) }
    ensures no_pipes { result ≡ true → NoPipes (view s.now) p n }
{
    let a = PIPES + p * 5;
    layout::blank::is_blank(&s[a..a + n * 5])
}
