// The readers of ports go.
ghost use Rattle.std.specs.Prelude.{◌≡◌, ◌||◌, ◌<◌};
ghost use Rattle.rules.specs.Machine.{inlets_at, is_share_port};
ghost use Rattle.rules.specs.Ports.{readerless, drop_inlet, drop_each};
ghost use Rattle.laws.specs.Rows.{All};
ghost use Rattle.table_ports.specs.Ports.{port_of};
ghost use Rattle.tables.specs.Change.{Becomes};
ghost use Rattle.tables.specs.View.{view};

use table_ports::{Port, Reader, vacant};
use tables::{PipeIndex, PortIndex, StateBytes};

// A port without a reader.
fn readerless(x: Port) -> Port
    ensures { port_of result ≡ readerless (port_of x) }
{
    Port {
        reader: Reader::Nobody,
        ..x
    }
}

// Whether port x, with nobody to read it, is not in use any more: a closed or shared one.
fn is_over(v: Port, x: usize) -> bool
    ensures { result ≡ ((port_of v).closed || is_share_port x) }
{
    v.closed || 72 <= x
}

// The reader of a port goes: what is queued is dropped, and a closed or shared port is not in use any more.
pub(crate) fn drop_inlet(s: &mut StateBytes, x: PortIndex)
    ensures { Becomes (drop_inlet x.at) s.old s.new }
{
    let v = table_ports::ports::load_port(s, x);
    if is_over(v, x.at) {
        vacant::free_port(s, x);
        return;
    }
    table_ports::ports::store_port(s, x, readerless(v));
    vacant::empty_queue(s, x);
}

// The inlets of a pipeline.
pub(crate) fn drop_inlets(s: &mut StateBytes, p: PipeIndex)
    requires all { All (λ x. x < 456) (inlets_at (view s.old) p.at) }
    ensures { Becomes (λ m. drop_each (inlets_at m p.at) m) s.old s.new }
{
    for i in 0..table_pipes::inlets::inlet_count(s, p) {
        let x = table_pipes::inlets::inlet(s, p, i);
        drop_inlet(s, PortIndex { at: x });
    }
}
