// The ports at a pipeline's inlets and its outlet.
ghost use Rattle.std.specs.Prelude.{◌≡◌, ◌<◌, length};
ghost use Rattle.rules.specs.Machine.{inlets_at};
ghost use Rattle.rules.specs.Check.{reads_port, inlets_live, outlet_live};
ghost use Rattle.table_ports.specs.Ports.{reader_of};
ghost use Rattle.tables.specs.View.{view, Sized};
ghost use Rattle.check_pipes.specs.Ends.{inlet_live};

use check_parts::entries::port_of;
use table_ports::Reader;
use tables::front::machine;
use tables::{PipeIndex, StateBytes};

// Whether a port's reader is inlet i of the pipeline at p.
fn reads_port(x: Reader, p: usize, i: usize) -> bool
    ensures { result ≡ reads_port (reader_of x) p i }
{
    matches!(x, Reader::Pipe(q, j) if usize::from(q) == p && usize::from(j) == i)
}

// Whether an inlet's port is in use and names the pipeline and the inlet.
fn inlet_live(s: &StateBytes, p: PipeIndex, i: usize) -> bool
    requires i_in_bounds { i < length (inlets_at (view s.now) p.at) }
    ensures { result ≡ inlet_live (view s.now) p.at (inlets_at (view s.now) p.at) i }
{
    let x = port_of(s, table_pipes::inlets::inlet(s, p, i));
    x.there && reads_port(x.reader, p.at, i)
}

// The same for all inlets.
pub(crate) fn inlets_in_use(s: &StateBytes, p: PipeIndex) -> bool
    ensures { result ≡ inlets_live (view s.now) p.at 0 (inlets_at (view s.now) p.at) }
{
    for i in 0..table_pipes::inlets::inlet_count(s, p) {
        if !inlet_live(s, p, i) {
            return false;
        }
    }
    true
}

// The same in any bytes that have a machine.
pub fn inlets_live(s: &[u8], p: PipeIndex) -> bool
    requires sized { Sized s.now }
    ensures { result ≡ inlets_live (view s.now) p.at 0 (inlets_at (view s.now) p.at) }
{
    inlets_in_use(machine(s), p)
}

// Whether a pipeline's own outlet is in use and open.
pub(crate) fn outlet_in_use(s: &StateBytes, p: usize) -> bool
    ensures { result ≡ outlet_live (view s.now) p }
{
    // kept: as one expression it would need a block for the port that is read.
    if 72 <= p {
        return true;
    }
    let x = port_of(s, p);
    x.there && !x.closed
}

// The same in any bytes that have a machine.
pub fn outlet_live(s: &[u8], p: usize) -> bool
    requires { Sized s.now }
    ensures { result ≡ outlet_live (view s.now) p }
{
    outlet_in_use(machine(s), p)
}
