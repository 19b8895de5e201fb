// The children of a node that keep rows of a split.
ghost use Rattle.std.specs.Prelude.{◌≡◌, [], ◌∷◌, ◌++◌, map, ◌+◌, ◌≤◌, ◌<◌, length};
ghost use Rattle.rules.specs.Plan.{kept_kids};
ghost use Rattle.rules.specs.Machine.{place};
ghost use Rattle.laws.specs.JobOk.{JobOk};
ghost use Rattle.table_pipes.specs.Inlets.{inlets_of};
ghost use Rattle.tables.specs.View.{view};
ghost use Rattle.lowering.specs.Kids.{kept_kid, kid_port};

use jobs::nodes;
use table_pipes::Inlets;
use tables::{NodeIndex, SlotIndex, StateBytes};

// The place of node c in slot k, which is its port's number too.
fn port_number(k: SlotIndex, c: NodeIndex) -> u16
    ensures { result ≡ place k.at c.at }
{
    (24 * k.at + c.at) as u16
}

// Whether node c is a child of node n that keeps rows of split t.
fn is_kept_kid(s: &StateBytes, t: usize, n: usize, c: usize) -> bool
    ensures { result ≡ kept_kid (view s.now).job n t c }
{
    nodes::is_kid(table_job::nodes::load_node(s, c), n) && reach::cut::keeps(s, c, t)
}

// One inlet more.
fn with_inlet(xs: Inlets, x: u16) -> Inlets
    requires { xs.len < 23 }
    ensures result_value { inlets_of result ≡ inlets_of xs ++ x ∷ [] }
    ensures len_value { result.len ≡ xs.len + 1 }
{
    let n = xs.len;
    let mut ports = xs.ports;
    ports[n] = x;
    Inlets { len: n + 1, ports }
}

// The port of node c too, if it is a child of node n that keeps rows.
fn with_kid(s: &StateBytes, k: SlotIndex, t: usize, n: usize, c: NodeIndex, xs: Inlets) -> Inlets
    requires len_bound { xs.len < 23 }
    ensures result_value { inlets_of result ≡ inlets_of xs ++ kid_port k.at (kept_kid (view s.now).job n t c.at) c.at }
    ensures len_value { result.len ≡ xs.len + length (kid_port k.at (kept_kid (view s.now).job n t c.at) c.at) }
{
    if is_kept_kid(s, t, n, c.at) {
        return with_inlet(xs, port_number(k, c));
    }
    xs
}

// The ports of the children of node n that keep rows of split t, in slot k.
pub(crate) fn kid_ports(s: &StateBytes, k: SlotIndex, t: usize, n: NodeIndex) -> Inlets
    requires job_ok { JobOk (view s.now).job }
    ensures result_value { inlets_of result ≡ map (place k.at) (kept_kids (view s.now).job n.at t) }
    ensures len_value { result.len ≡ length (kept_kids (view s.now).job n.at t) }
    ensures len_bound { result.len ≤ 23 }
{
    let mut xs = Inlets {
        len: 0,
        ports: [0; 23],
    };
    for c in 0..n.at {
        xs = with_kid(s, k, t, n.at, NodeIndex { at: c }, xs);
    }
    xs
}
