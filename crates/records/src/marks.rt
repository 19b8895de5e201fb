// The two bytes before a record say what it is.
ghost use Rattle.std.specs.Prelude.{◌≡◌};
ghost use Rattle.rules.specs.Job.{is_mark};
ghost use Rattle.records.specs.Mark.{mark_of};

use crate::Mark;

// Whether x, y are the two bytes a, b.
pub fn is(x: u8, y: u8, a: u8, b: u8) -> bool
    ensures { result ≡ is_mark x y (a, b) }
{
    x == a && y == b
}

// What two bytes mark.
pub fn mark(x: u8, y: u8) -> Mark
    ensures { result ≡ mark_of x y }
{
    match (x, y) {
        (b'S', b'C') => Mark::Slots,
        (b'S', b'G') => Mark::Leaf,
        (b'C', b'C') => Mark::Concat,
        (b'P', b'K') => Mark::Pack,
        (b'S', b'P') => Mark::Split,
        _ => Mark::Unknown,
    }
}
