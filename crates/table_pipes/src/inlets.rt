// The ports that a pipeline takes from, by inlet: how many, then ports of two bytes, low byte first.
ghost use Rattle.std.specs.Prelude.{◌≡◌, ◌+◌, ◌*◌, ◌/◌, ◌%◌, ◌≤◌, ◌<◌, length, get_or};
ghost use Rattle.rules.specs.Table.{get};
ghost use Rattle.rules.specs.Machine.{inlets_at, set_inlets};
ghost use Rattle.tables.specs.Decode.{inlets};
ghost use Rattle.tables.specs.Change.{Becomes};
ghost use Rattle.tables.specs.View.{view, Sized};
ghost use Rattle.table_pipes.specs.Inlets.{inlets_of};

use tables::front::machine;
use tables::{PipeIndex, StateBytes};

const INLETS: usize = 4767;

// The first `len` of the ports count, at most 23.
// kept: a count beside an array: fixed memory.
#[derive(Clone, Copy)]
pub struct Inlets {
    pub len: usize,
    pub ports: [u16; 23],
}

// How many inlets the pipeline at a place has. A count past the table reads as one.
// kept: no Option, since `view` reads such a count so.
pub fn inlet_count(s: &StateBytes, p: PipeIndex) -> usize
    ensures value { result ≡ length (inlets_at (view s.now) p.at) }
    ensures upper_bound { result ≤ 23 }
{
    let n = usize::from(s[INLETS + p.at * 47]);
    if 23 < n { 1 } else { n }
}

// The port of inlet i in the record from a on.
fn port_at(s: &[u8], a: usize, i: usize) -> u16
    requires a_in_bounds { a + 47 ≤ length s.now }
    requires i_bound { i < 23 }
    ensures { result ≡ get_or s.now (a + (1 + i * 2)) 0 + 256 * get_or s.now (a + (1 + i * 2 + 1)) 0 }
{
    let k = 1 + i * 2;
    u16::from_le_bytes([s[a + k], s[a + (k + 1)]])
}

// The port of one inlet.
pub fn inlet_at(s: &StateBytes, p: PipeIndex, i: usize) -> u16
    requires i_in_bounds { i < length (inlets_at (view s.now) p.at) }
    ensures { result ≡ get 0 (inlets_at (view s.now) p.at) i }
{
    let a = INLETS + p.at * 47;
    if 23 < s[a] { 65535 } else { port_at(s, a, i) }
}

// The inlets of the pipeline at a place.
pub fn load_inlets(s: &StateBytes, p: PipeIndex) -> Inlets
    ensures result_value { inlets_of result ≡ inlets_at (view s.now) p.at }
    ensures len_bound { result.len ≤ 23 }
{
    let len = inlet_count(s, p);
    let mut ports = [0; 23];
    for i in 0..len {
        ports[i] = inlet_at(s, p, i);
    }
    Inlets { len, ports }
}

// The bytes of a pipeline's inlets: those of ports that do not count are 0.
fn inlet_bytes(x: Inlets) -> [u8; 47]
    requires { x.len ≤ 23 }
    ensures { inlets result ≡ inlets_of x }
{
    let mut r = [0; 47];
    r[0] = x.len as u8;
    for i in 0..x.len {
        let k = 1 + i * 2;
        r[k..k + 2].copy_from_slice(&x.ports[i].to_le_bytes());
    }
    r
}

// Other inlets at a place.
pub fn store_inlets(s: &mut StateBytes, p: PipeIndex, x: Inlets)
    requires len_bound { x.len ≤ 23 }
    ensures { Becomes (set_inlets p.at (inlets_of x)) s.old s.new }
{
    let a = INLETS + p.at * 47;
    s[a..a + 47].copy_from_slice(&inlet_bytes(x));
}

// The port of one inlet, as an index.
pub fn inlet(s: &[u8], p: PipeIndex, i: usize) -> usize
    requires sized { Sized s.now }
    requires i_in_bounds { i < length (inlets_at (view s.now) p.at) }
    ensures { result ≡ get 0 (inlets_at (view s.now) p.at) i }
{
    usize::from(inlet_at(machine(s), p, i))
}
