// A read is asked for; causes of 14.
ghost use Rattle.std.specs.Prelude.{true, ◌<◌, length};
ghost use Rattle.rules.specs.Drive.{ask};
ghost use Rattle.tables.specs.Change.{Becomes};
ghost use Rattle.tables.specs.View.{view};

use table_queues::Read;
use tables::{NodeIndex, PipeIndex, StateBytes};

// The pipeline at a place asks for its segment; a cause of 14 where there are as many reads as nodes.
pub(crate) fn ask(s: &mut StateBytes, p: PipeIndex)
    requires s_len_bound { length (view s.old).news < 24 }
    ensures { Becomes (ask p.at) s.old s.new }
{
    let n = table_queues::reads::read_count(s);
    if 24 <= n {
        table_lists::causes::fault_if(s, true);
        return;
    }
    let leaf = reach::leaves::first_leaf(s, NodeIndex { at: p.at % 24 });
    let read = Read {
        leaf: leaf as u8,
        owner: Some(p.at as u8),
        delivered: false,
    };
    table_queues::reads::push_read(s, read);
    table_queues::news::push_new(s, n as u8);
}
