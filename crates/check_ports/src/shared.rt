// The port of a leaf and a split: a source of the segment writes it, and it has the whole segment or nothing.
ghost use Rattle.std.specs.Prelude.{◌≡◌, ◌&&◌, ◌||◌, ◌+◌, ◌-◌, ◌/◌, ◌<◌, leb, length};
ghost use Rattle.rules.specs.Table.{all};
ghost use Rattle.rules.specs.Plan.{names};
ghost use Rattle.rules.specs.Machine.{live, port_at, queue_at};
ghost use Rattle.rules.specs.Check.{whole_batch, has_source, shared_ok, port_ok};
ghost use Rattle.tables.specs.View.{view};

use crate::readers::share_reader;
use table_ports::ports;
use tables::{NodeIndex, PipeIndex, PortIndex, SharedPortIndex, StateBytes};

// Whether port x has nothing, or a segment with rows.
fn whole(s: &StateBytes, x: SharedPortIndex) -> bool
    ensures { result ≡ (leb (length (queue_at (view s.now) x.at)) 1
        && all (whole_batch (view s.now) ((x.at - 72) / 16)) (queue_at (view s.now) x.at)) }
{
    !table_ports::share_flags::is_full(s, x)
        || 0 < table_job::node_fields::node_rows(s, (x.at - 72) / 16)
}

// Whether the source at leaf g lives and is of the segment of leaf l.
fn is_source(s: &StateBytes, g: NodeIndex, l: usize) -> bool
    ensures { result ≡ (names (view s.now).job l g.at && live (view s.now) (72 + g.at)) }
{
    table_pipes::pipes::is_live(s, PipeIndex { at: 72 + g.at })
        && reach::leaves::same_segment(s, g.at, l)
}

// Whether a source of the segment of leaf l lives: most often it stands at that leaf.
fn has_source(s: &StateBytes, l: NodeIndex) -> bool
    ensures { result ≡ has_source (view s.now) l.at }
{
    if is_source(s, l, l.at) {
        return true;
    }
    let n = table_job::counts::node_count(s);
    for g in 0..n {
        if is_source(s, NodeIndex { at: g }, l.at) {
            return true;
        }
    }
    false
}

// Whether port x, of leaf l, is closed or still written by a source of its segment.
fn written(s: &StateBytes, x: PortIndex, l: NodeIndex) -> bool
    ensures { result ≡ ((port_at (view s.now) x.at).closed || has_source (view s.now) l.at) }
{
    ports::is_closed(s, x) || has_source(s, l)
}

// Whether port x is of a leaf and a split of the job, is written while it is open, and holds what it may.
fn shared_ok(s: &StateBytes, x: SharedPortIndex) -> bool
    ensures { result ≡ shared_ok (view s.now) x.at }
{
    let l = (x.at - 72) / 16;
    table_job::node_fields::is_leaf(s, l)
        && (x.at - 72) % 16 < table_job::counts::split_count(s)
        && written(s, PortIndex { at: x.at }, NodeIndex { at: l })
        && whole(s, x)
}

// Whether port x is in order: one that is not in use names nobody.
pub(crate) fn share_port(s: &StateBytes, x: SharedPortIndex) -> bool
    ensures { result ≡ port_ok (view s.now) x.at (port_at (view s.now) x.at) }
{
    let y = PortIndex { at: x.at };
    if !ports::is_used(s, y) {
        return ports::is_unread(s, y);
    }
    share_reader(s, x, ports::load_port(s, y).reader) && shared_ok(s, x)
}
