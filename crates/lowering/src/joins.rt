// Ports with their readers, and their writers' pipelines.
ghost use Rattle.std.specs.Prelude.{◌≤◌, ◌<◌};
ghost use Rattle.rules.specs.Machine.{pipe};
ghost use Rattle.rules.specs.Lower.{connect};
ghost use Rattle.laws.specs.Rows.{All};
ghost use Rattle.table_pipes.specs.Inlets.{inlets_of};
ghost use Rattle.table_ports.specs.Ports.{reader_of};
ghost use Rattle.tables.specs.Change.{Becomes};
ghost use Rattle.lowering.specs.Joins.{join_ports};

use table_pipes::Inlets;
use table_ports::Reader;
use tables::{PipeIndex, PortIndex, StateBytes};

// The port at a place with its reader, and the pipeline that writes it.
pub fn connect(s: &mut StateBytes, p: PipeIndex, r: Reader)
    ensures { Becomes (connect p.at (reader_of r)) s.old s.new }
{
    claims::ports::make_port(s, PortIndex { at: p.at }, r);
    pipelines::numbering::add(s, p);
}

// Inlet i of the pipeline at q reads port x.
fn join_port(s: &mut StateBytes, q: PipeIndex, i: usize, x: PipeIndex)
    requires i_bound { i < 23 }
    ensures { Becomes (connect x.at (pipe q.at i)) s.old s.new }
{
    connect(s, x, Reader::Pipe(q.at as u8, i as u8));
}

// The inlets of the pipeline at q read these ports.
pub(crate) fn join_ports(s: &mut StateBytes, q: PipeIndex, xs: Inlets)
    requires len_bound { xs.len ≤ 23 }
    requires all { All (λ x. x < 96) (inlets_of xs) }
    ensures { Becomes (join_ports q.at 0 (inlets_of xs)) s.old s.new }
{
    let n = xs.len;
    let ports = xs.ports;
    for i in 0..n {
        join_port(
            s,
            q,
            i,
            PipeIndex {
                at: usize::from(ports[i]),
            },
        );
    }
}
