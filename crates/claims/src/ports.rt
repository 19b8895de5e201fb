// Ports made and claimed.
ghost use Rattle.std.specs.Prelude.{◌≡◌, [], drop};
ghost use Rattle.rules.specs.Shares.{empty_port, claimed, claim_port};
ghost use Rattle.rules.specs.Machine.{set_port, set_queue};
ghost use Rattle.table_ports.specs.Ports.{port_of, reader_of};
ghost use Rattle.tables.specs.Change.{Becomes};
ghost use Rattle.tables.specs.View.{view, machine_len};
ghost use Rattle.claims.specs.Claimed.{number_of};

use table_ports::{Port, Reader};
use tables::{PipeIndex, PortIndex, StateBytes};

// An open port with a fresh queue, of this reader.
pub fn make_port(s: &mut StateBytes, x: PortIndex, r: Reader)
    ensures { Becomes (λ m. set_queue x.at [] (set_port x.at (empty_port (reader_of r)) m)) s.old s.new }
{
    let v = Port {
        there: true,
        closed: false,
        changed: false,
        reader: r,
    };
    table_ports::ports::store_port(s, x, v);
    table_ports::vacant::empty_queue(s, x);
}

// A port that the first inlet of the pipeline at p reads.
fn read_by(x: Port, p: PipeIndex) -> Port
    ensures { port_of result ≡ claimed (port_of x) p.at }
{
    Port {
        reader: Reader::Pipe(p.at as u8, 0),
        ..x
    }
}

// The pipeline at p reads the port, if there is one.
pub(crate) fn claim_port(
    s: &mut StateBytes,
    p: PipeIndex,
    x: Option<PortIndex>,
) -> Option<PortIndex>
    ensures s_value { claim_port p.at (number_of x) (view s.old) ≡ (number_of result, view s.new) }
    ensures s_unchanged { drop machine_len s.new ≡ drop machine_len s.old }
{
    let x = x?;
    let v = table_ports::ports::load_port(s, x);
    table_ports::ports::store_port(s, x, read_by(v, p));
    Some(x)
}
