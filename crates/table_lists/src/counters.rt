// Pipeline numbers in use or freed, the next split, and whether a cause of 14 came up.
ghost use Rattle.std.specs.Prelude.{◌≡◌};
ghost use Rattle.rules.specs.Machine.{with_made, with_next, with_fault};
ghost use Rattle.tables.specs.Change.{Becomes};
ghost use Rattle.tables.specs.View.{view};

use tables::StateBytes;

// kept: a reader and a setter for each byte. A trait with laws, as the stacks have, would be longer than these one-line functions.

// How many pipeline numbers are in use or freed.
pub fn made(s: &StateBytes) -> u8
    ensures { result ≡ (view s.now).made }
{
    s[3]
}

// Another number of pipeline numbers.
pub fn set_made(s: &mut StateBytes, n: u8)
    ensures { Becomes (with_made n) s.old s.new }
{
    s[3] = n;
}

// The next split.
pub fn next(s: &StateBytes) -> u8
    ensures { result ≡ (view s.now).next }
{
    s[4]
}

// Another next split.
pub fn set_next(s: &mut StateBytes, n: u8)
    ensures { Becomes (with_next n) s.old s.new }
{
    s[4] = n;
}

// Whether a cause of 14 came up.
pub fn fault(s: &StateBytes) -> bool
    ensures { result ≡ (view s.now).fault }
{
    s[5] != 0
}

// That a cause of 14 came up, or none.
pub fn set_fault(s: &mut StateBytes, x: bool)
    ensures { Becomes (with_fault x) s.old s.new }
{
    s[5] = u8::from(x);
}
