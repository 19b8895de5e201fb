// The input as it comes, in a buffer.
ghost use Rattle.std.specs.Prelude.{◌≡◌, ◌-◌, ◌≤◌, ◌<◌, length, take, drop};
ghost use Rattle.std.specs.Io.KnownBytes.{Consumes};
ghost use Rattle.turns.specs.Place.{Within, pending, coming_of, Refilled};

use crate::shift::shift;
use feeding::Coming;
use std::io::Read;

// The bytes from `at` to `have` are there and not yet used. Where the input has ended no more will come.
// kept: `ended` is no flag of a value beside it: the bytes that are there count whether or not it has ended.
#[derive(Clone, Copy)]
pub(crate) struct Place {
    pub(crate) at: usize,
    pub(crate) have: usize,
    pub(crate) ended: bool,
}

// What may follow these bytes, in a buffer with so much room.
pub(crate) fn coming(p: Place, room: usize) -> Coming
    requires { Within p room }
    ensures { result ≡ coming_of p room }
{
    if p.ended {
        return Coming::Ended;
    }
    if p.have - p.at == room {
        return Coming::Full;
    }
    Coming::More
}

// One read, behind the first `have` bytes, which stay: how many are there then. A read that fails gives nothing.
fn more<R: Read>(input: &mut R, buf: &mut [u8], have: usize) -> usize
    requires { have ≤ length buf.old }
    ensures lower_bound { have ≤ result }
    ensures upper_bound { result ≤ length buf.new }
    ensures buf_unchanged { take have buf.new ≡ take have buf.old }
    ensures bytes { Consumes (R.remaining input.old) (R.remaining input.new) (drop have (take result buf.new)) }
{
    match input.read(&mut buf[have..]) {
        Ok(n) => have + n,
        Err(_) => have,
    }
}

// One read more, for which there is room: what is not yet used comes to the front, and what was read behind it. Where nothing came the input has ended.
pub(crate) fn refill<R: Read>(input: &mut R, buf: &mut [u8], p: Place) -> Place
    requires within { Within p (length buf.old) }
    requires at_in_bounds { p.have - p.at < length buf.old }
    ensures refilled { Refilled p buf.old buf.new result }
    ensures bytes { Consumes (R.remaining input.old) (R.remaining input.new) (drop (p.have - p.at) (pending result buf.new)) }
{
    let n = p.have - p.at;
    shift(buf, p.at, n);
    let have = more(input, buf, n);
    Place {
        at: 0,
        have,
        ended: have == n,
    }
}
