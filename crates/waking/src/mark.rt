// A port's mark goes to its reader.
ghost use Rattle.std.specs.Prelude.{◌≡◌, ◌<◌, length};
ghost use Rattle.rules.specs.Wake as rule;
ghost use Rattle.table_ports.specs.Ports.{reader_of, port_of};
ghost use Rattle.tables.specs.Change.{Becomes};
ghost use Rattle.tables.specs.View.{view};
ghost use Rattle.waking.specs.Tells.{Told, Tells};

use crate::reader;
use table_lists::stacks::{self, Dirty};
use table_ports::{Port, Reader, ports};
use tables::{PortIndex, StateBytes};

// A slot is to be looked at, once.
fn mark_dirty(s: &mut StateBytes, k: u8)
    requires s_len_bound { length (view s.old).dirty < 3 }
    ensures { Becomes (rule.mark_dirty k) s.old s.new }
{
    if !stacks::has::<Dirty>(s, k) {
        stacks::push::<Dirty>(s, k);
    }
}

// The same port without its mark.
fn unmarked(v: Port) -> Port
    ensures { port_of result ≡ rule.unmarked (port_of v) }
{
    Port {
        changed: false,
        ..v
    }
}

// The reader of port x is told that it changed.
fn tell(s: &mut StateBytes, reader: Reader, x: PortIndex)
    requires told { Told (view s.old) (reader_of reader) }
    ensures { Becomes (rule.tell (reader_of reader) x.at) s.old s.new }
{
    match reader {
        Reader::Nobody => {}
        Reader::Slot => mark_dirty(s, (x.at / 24) as u8),
        Reader::Pipe(p, i) => reader::tell_reader(s, usize::from(p), i),
    }
}

// The mark of port x, where it has one.
pub fn pass_mark(s: &mut StateBytes, x: PortIndex)
    requires tells { Tells (view s.old) x.at }
    ensures { Becomes (rule.pass_mark x.at) s.old s.new }
{
    let v = ports::load_port(s, x);
    if !v.changed {
        return;
    }
    ports::store_port(s, x, unmarked(v));
    tell(s, v.reader, x);
}
