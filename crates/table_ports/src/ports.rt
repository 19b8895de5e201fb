// A port with its reader.
ghost use Rattle.std.specs.Prelude.{◌≡◌, [], ◌∷◌};
ghost use Rattle.rules.specs.Machine.{port_at, set_port};
ghost use Rattle.rules.specs.Ports.{is_nobody};
ghost use Rattle.tables.specs.Decode.{reader_from};
ghost use Rattle.tables.specs.Change.{Becomes};
ghost use Rattle.tables.specs.View.{view};
ghost use Rattle.table_ports.specs.Ports.{reader_of, port_of, reader_tag, reader_pipe, reader_inlet};

use tables::{PortIndex, StateBytes};

pub(crate) const PORTS: usize = 14751;

// Who takes a port's batches: an inlet of a pipeline is named by both numbers.
#[derive(Clone, Copy)]
pub enum Reader {
    Nobody,
    Slot,
    Pipe(u8, u8),
}

#[derive(Clone, Copy)]
pub struct Port {
    pub there: bool,
    pub closed: bool,
    pub changed: bool,
    pub reader: Reader,
}

// The reader of a tag and two numbers.
// kept: a `From` of three numbers would not name which of them is the tag.
fn reader_of(tag: u8, pipe: u8, inlet: u8) -> Reader
    ensures { reader_of result ≡ reader_from tag pipe inlet }
{
    match tag {
        0 => Reader::Nobody,
        1 => Reader::Slot,
        2 => Reader::Pipe(pipe, inlet),
        _ => Reader::Pipe(255, 255),
    }
}

// The three bytes of a reader: its tag, then both numbers.
// kept: it undoes `reader_of` and stands beside it; as a `From` it would be no shorter.
fn reader_bytes(x: Reader) -> [u8; 3]
    ensures { result ≡ reader_tag x ∷ reader_pipe x ∷ reader_inlet x ∷ [] }
{
    match x {
        Reader::Nobody => [0, 0, 0],
        Reader::Slot => [1, 0, 0],
        Reader::Pipe(p, i) => [2, p, i],
    }
}

// Whether the port at a place is in use.
pub fn is_used(s: &StateBytes, x: PortIndex) -> bool
    ensures { result ≡ (port_at (view s.now) x.at).there }
{
    s[PORTS + x.at * 6] != 0
}

// Whether the port at a place is closed.
pub fn is_closed(s: &StateBytes, x: PortIndex) -> bool
    ensures { result ≡ (port_at (view s.now) x.at).closed }
{
    s[PORTS + x.at * 6 + 1] != 0
}

// Whether the port at a place names no reader.
pub fn is_unread(s: &StateBytes, x: PortIndex) -> bool
    ensures { result ≡ is_nobody (port_at (view s.now) x.at).reader }
{
    s[PORTS + x.at * 6 + 3] == 0
}

// The port at a place.
pub fn load_port(s: &StateBytes, x: PortIndex) -> Port
    ensures { port_of result ≡ port_at (view s.now) x.at }
{
    let a = PORTS + x.at * 6;
    Port {
        there: s[a] != 0,
        closed: s[a + 1] != 0,
        changed: s[a + 2] != 0,
        reader: reader_of(s[a + 3], s[a + 4], s[a + 5]),
    }
}

// Another port at a place.
pub fn store_port(s: &mut StateBytes, x: PortIndex, v: Port)
    ensures { Becomes (set_port x.at (port_of v)) s.old s.new }
{
    let a = PORTS + x.at * 6;
    let reader = reader_bytes(v.reader);
    let r = [
        u8::from(v.there),
        u8::from(v.closed),
        u8::from(v.changed),
        reader[0],
        reader[1],
        reader[2],
    ];
    s[a..a + 6].copy_from_slice(&r);
}

// Whether nobody reads.
pub fn is_nobody(r: Reader) -> bool
    ensures { result ≡ is_nobody (reader_of r) }
{
    matches!(r, Reader::Nobody)
}
