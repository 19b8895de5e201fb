// Which splits are finished, and which shared segments' sources are still to be made.
ghost use Rattle.std.specs.Prelude.{◌≡◌, true, false};
ghost use Rattle.layout.specs.Blank.{blank};
ghost use Rattle.layout.specs.Cut.{cut};
ghost use Rattle.rules.specs.Table.{get, put};
ghost use Rattle.rules.specs.Machine.{with_finished, with_unbuilt};
ghost use Rattle.tables.specs.Change.{Becomes};
ghost use Rattle.tables.specs.View.{view};
ghost use Rattle.table_lists.specs.Built.{AllBuilt};

use tables::{NodeIndex, SplitIndex, StateBytes};

const FINISHED: usize = 12;

const UNBUILT: usize = 28;

// kept: a reader and a setter for each table of flags. A trait with laws, as the stacks have, would be longer than these one-line functions.

// A split is finished.
pub fn finished(s: &StateBytes, i: SplitIndex) -> bool
    ensures { result ≡ get false (view s.now).finished i.at }
{
    s[FINISHED + i.at] != 0
}

// That a split is finished, or not.
pub fn set_finished(s: &mut StateBytes, i: SplitIndex, x: bool)
    ensures { Becomes (λ m. with_finished (put false m.finished i.at x) m) s.old s.new }
{
    s[FINISHED + i.at] = u8::from(x);
}

// The source of a shared segment, by its first leaf, is still to be made.
pub fn unbuilt(s: &StateBytes, i: NodeIndex) -> bool
    ensures { result ≡ get false (view s.now).unbuilt i.at }
{
    s[UNBUILT + i.at] != 0
}

// Whether the 24 flags of sources to be made are all 0.
pub fn all_built(s: &StateBytes) -> bool
    ensures value { result ≡ blank (cut 28 52 s.now) }
    ensures all_built { result ≡ true → AllBuilt (view s.now) }
{
    layout::blank::is_blank(&s[UNBUILT..UNBUILT + 24])
}

// That it is still to be made, or not.
pub fn set_unbuilt(s: &mut StateBytes, i: NodeIndex, x: bool)
    ensures { Becomes (λ m. with_unbuilt (put false m.unbuilt i.at x) m) s.old s.new }
{
    s[UNBUILT + i.at] = u8::from(x);
}
