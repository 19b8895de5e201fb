// A job in its tables, and a state made anew.
ghost use Rattle.std.specs.Prelude.{◌≡◌, length};
ghost use Rattle.rules.specs.Machine.{blank};
ghost use Rattle.plan.specs.Parse.{job_from, Fits};
ghost use Rattle.tables.specs.Change.{Becomes};
ghost use Rattle.tables.specs.View.{Sized, machine_len};

use crate::{nodes, outlines, zeros};
use plan::Parsed;
use tables::{MACHINE_LEN, StateBytes};

// The machine of what was read from job bytes.
fn make_in(s: &mut StateBytes, b: &[u8], p: Parsed)
    requires fits { Fits b.now p }
    ensures size { length s.new ≡ machine_len }
    ensures becomes { Becomes (λ m. blank (job_from b.now p)) s.old s.new }
{
    zeros::clear_tables(s);
    nodes::store_nodes(s, p.nodes, p.node_count);
    outlines::store_outlines(s, b, p.splits, p.split_count);
    let h = [p.slots, p.node_count as u8, p.split_count as u8];
    s[0..3].copy_from_slice(&h);
}

// What was read from job bytes, with nothing in use yet.
pub fn make_read(s: &mut [u8], b: &[u8], p: Parsed)
    requires sized { Sized s.old }
    requires fits { Fits b.now p }
    ensures { Becomes (λ m. blank (job_from b.now p)) s.old s.new }
{
    make_in(s.first_chunk_mut::<MACHINE_LEN>().unwrap(), b, p);
}
