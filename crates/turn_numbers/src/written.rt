// A turn as numbers.
ghost use Rattle.std.specs.Prelude.{◌≡◌, ◌≤◌, ◌<◌, min, length, take, get_or};
ghost use Rattle.batches.specs.Batch.{batch_of};
ghost use Rattle.turn_numbers.specs.Numbers.{read_numbers, output_numbers, plain_numbers, turn_number, written};

use batches::Batch;
use turn::{Told, Turn};

// How many numbers a turn has.
pub const TURN_LEN: usize = 12;

// How many columns there are.
fn columns(width: usize) -> u32
    ensures { result ≡ min width 4 }
{
    width.min(4) as u32
}

// The number of a column; 0 where there is no such column.
fn at(xs: [u32; 4], width: usize, i: usize) -> u32
    requires { i < 4 }
    ensures { result ≡ get_or (take width xs) i 0 }
{
    if i < width { xs[i] } else { 0 }
}

fn plain(kind: u32) -> [u32; 12]
    ensures { result ≡ plain_numbers kind }
{
    [kind, 0, 0, 0, 0, 0, 0, 0, 0, 0, 0, 0]
}

fn read(number: u8, segment: u32) -> [u32; 12]
    ensures { result ≡ read_numbers number segment }
{
    [1, u32::from(number), segment, 0, 0, 0, 0, 0, 0, 0, 0, 0]
}

fn output(split: u8, b: Batch) -> [u32; 12]
    ensures { result ≡ output_numbers split (batch_of b) }
{
    let n = b.width;
    let s = b.segment;
    let f = b.first;
    [
        2,
        u32::from(split),
        b.rows,
        columns(n),
        at(s, n, 0),
        at(f, n, 0),
        at(s, n, 1),
        at(f, n, 1),
        at(s, n, 2),
        at(f, n, 2),
        at(s, n, 3),
        at(f, n, 3),
    ]
}

// A turn's numbers, and 0; or nothing and the number of a refusal.
pub fn write(to: &mut [u32], x: Turn<Told>) -> u8
    requires { 12 ≤ length to.old }
    ensures value { result ≡ turn_number x }
    ensures to_after { to.new ≡ written x to.old }
{
    let numbers = match x {
        Turn::Read(r, g) => read(r, g),
        Turn::Output(s, b) => output(s, b),
        Turn::Waiting => plain(3),
        Turn::Done => plain(4),
        Turn::Refused(t) => return t.number,
    };
    to[..12].copy_from_slice(&numbers);
    0
}
