// A list of reads in 97 bytes: how many, then 24 records. A count past the table reads as one read that no check accepts.
ghost use Rattle.std.specs.Prelude.{◌≡◌, ◌≤◌, ◌<◌, ltb, length, get_or};
ghost use Rattle.rules.specs.Table.{get, put};
ghost use Rattle.rules.specs.Machine.{no_read};
ghost use Rattle.tables.specs.Reads.{reads_in};
ghost use Rattle.tables.specs.Rings.{appended};
ghost use Rattle.table_queues.specs.Read.{read_of, bytes_of};

use tables::ReadIndex;

// A read: its segment by its first leaf, the pipeline that waits for it, whether it was delivered.
#[derive(Clone, Copy)]
pub struct Read {
    pub leaf: u8,
    pub owner: Option<u8>,
    pub delivered: bool,
}

// The four bytes of a read.
fn bytes_of(x: Read) -> [u8; 4]
    ensures { result ≡ bytes_of x }
{
    [
        x.leaf,
        u8::from(x.owner.is_some()),
        x.owner.unwrap_or(0),
        u8::from(x.delivered),
    ]
}

// A count past the table becomes the read that it reads as.
fn settle(r: &mut [u8])
    requires { length r.old ≡ 97 }
    ensures r_unchanged { reads_in r.new ≡ reads_in r.old }
    ensures r_bound { get_or r.new 0 0 ≤ 24 }
{
    if 24 < r[0] {
        r[1..5].copy_from_slice(&[255, 0, 0, 0]);
        r[0] = 1;
    }
}

// How many.
pub(crate) fn count(r: &[u8]) -> usize
    requires { length r.now ≡ 97 }
    ensures { result ≡ length (reads_in r.now) }
{
    if 24 < r[0] { 1 } else { usize::from(r[0]) }
}

// Read i of those that there are.
pub(crate) fn load(r: &[u8], i: ReadIndex) -> Read
    requires r_len { length r.now ≡ 97 }
    requires i_in_bounds { i.at < length (reads_in r.now) }
    ensures { read_of result ≡ get no_read (reads_in r.now) i.at }
{
    if 24 < r[0] {
        return Read {
            leaf: 255,
            owner: None,
            delivered: false,
        };
    }
    let a = 1 + i.at * 4;
    Read {
        leaf: r[a],
        owner: layout::flags::option(r[a + 1], r[a + 2]),
        delivered: r[a + 3] != 0,
    }
}

// Another read i.
pub(crate) fn store(r: &mut [u8], i: ReadIndex, x: Read)
    requires r_len { length r.old ≡ 97 }
    requires i_in_bounds { i.at < length (reads_in r.old) }
    ensures { reads_in r.new ≡ put no_read (reads_in r.old) i.at (read_of x) }
{
    settle(r);
    let a = 1 + i.at * 4;
    r[a..a + 4].copy_from_slice(&bytes_of(x));
}

// One read more; false where the table is full.
pub(crate) fn push(r: &mut [u8], x: Read) -> bool
    requires { length r.old ≡ 97 }
    ensures value { result ≡ ltb (length (reads_in r.old)) 24 }
    ensures r_after { reads_in r.new ≡ appended 24 (read_of x) (reads_in r.old) }
{
    settle(r);
    let n = usize::from(r[0]);
    if 24 <= n {
        return false;
    }
    let a = 1 + n * 4;
    r[a..a + 4].copy_from_slice(&bytes_of(x));
    r[0] = (n + 1) as u8;
    true
}
