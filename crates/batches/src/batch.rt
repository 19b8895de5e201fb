// A batch: some rows, and for each column the segment and the first row that they come from.
ghost use Rattle.std.specs.Prelude.{◌≡◌, ◌≤◌, min};
ghost use Rattle.rules.specs.Port.{front, no_batch};
ghost use Rattle.batches.specs.Batch.{batch_of, run_of, Behind, Lowered};

use crate::segment::SegmentId;

// The first `width` of the columns count, at most 4.
// kept: two arrays side by side, since a stored batch has all segments and then all first rows.
#[derive(Clone, Copy)]
pub struct Batch {
    pub rows: u32,
    pub width: usize,
    pub segment: [u32; 4],
    pub first: [u32; 4],
}

// How many columns count.
pub fn columns(width: usize) -> usize
    ensures { result ≡ min width 4 }
{
    width.min(4)
}

// The first rows of the columns in use, n further down.
fn lowered(first: [u32; 4], width: usize, n: u32) -> Option<[u32; 4]>
    ensures { Lowered first width n result }
{
    let count = columns(width);
    let mut moved = first;
    for i in 0..count {
        moved[i] = first[i].checked_add(n)?;
    }
    Some(moved)
}

impl Batch {
    // No rows and no columns.
    #[tactic(auto, unfolding(crate::specs::Cells::cells_of))]
    pub fn none() -> Batch
        ensures { batch_of result ≡ no_batch }
    {
        Batch {
            rows: 0,
            width: 0,
            segment: [0; 4],
            first: [0; 4],
        }
    }

    // A run of a segment's rows, as one column.
    #[tactic(auto, unfolding(crate::specs::Cells::cells_of))]
    pub fn of_run(segment: SegmentId, start: u32, size: u32) -> Batch
        ensures { batch_of result ≡ run_of segment.0 start size }
    {
        Batch {
            rows: size,
            width: 1,
            segment: [segment.0, 0, 0, 0],
            first: [start, 0, 0, 0],
        }
    }

    // The same columns with n rows: the first n, of a batch that has as many.
    pub fn front(self, n: u32) -> Batch
        ensures { batch_of result ≡ front n (batch_of self) }
    {
        Batch { rows: n, ..self }
    }

    // What is behind the first n rows. Refused, with the batch as it was, where a row number would pass 32 bits.
    pub fn behind(self, n: u32) -> Result<Batch, Batch>
        ensures { Behind n self result }
    {
        match lowered(self.first, self.width, n) {
            Some(first) => Ok(Batch {
                rows: self.rows.saturating_sub(n),
                first,
                ..self
            }),
            None => Err(self),
        }
    }

    // The same batch, which says no more columns than it has places for.
    pub fn trimmed(self) -> Batch
        ensures result_value { batch_of result ≡ batch_of self }
        ensures width_bound { result.width ≤ 4 }
    {
        Batch {
            width: columns(self.width),
            ..self
        }
    }
}
