// Columns beside columns.
ghost use Rattle.std.specs.Prelude.{◌≡◌, ◌+◌, ◌≤◌};
ghost use Rattle.std.proofs.Math.Seq.{paste};
ghost use Rattle.batches.specs.Beside.{Beside};

use crate::batch::{Batch, columns};

// The first n of b over those of a from `at` on.
fn pasted(a: [u32; 4], at: usize, b: [u32; 4], n: usize) -> [u32; 4]
    requires { at + n ≤ 4 }
    ensures { result ≡ paste a at b n }
{
    let mut r = a;
    r[at..at + n].copy_from_slice(&b[..n]);
    r
}

impl Batch {
    // The rows of a batch with the columns of another beside its own. Refused, with the batch as it was, where that makes more than 4.
    pub fn beside(self, other: Batch) -> Result<Batch, Batch>
        ensures { Beside self other result }
    {
        let mine = columns(self.width);
        let more = columns(other.width);
        if mine + more > 4 {
            return Err(self);
        }
        Ok(Batch {
            rows: self.rows,
            width: mine + more,
            segment: pasted(self.segment, mine, other.segment, more),
            first: pasted(self.first, mine, other.first, more),
        })
    }
}
