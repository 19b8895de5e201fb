// The front batches of a pack's inlets: their least number of rows, and all side by side.
ghost use Rattle.std.specs.Prelude.{◌≡◌, map, ◌≤◌, ◌<◌, length, take};
ghost use Rattle.rules.specs.Operators.{least};
ghost use Rattle.batches.specs.Batch.{batch_of};
ghost use Rattle.pack_source.specs.Fronts.{fronts_of, Joins};

use batches::Batch;

// The first `len` of the batches count, at most 4.
// kept: an array and how many of it count, since there is no heap.
#[derive(Clone, Copy)]
pub struct Fronts {
    pub batches: [Batch; 4],
    pub len: usize,
}

// The least number of rows of the first n, from the last of them on.
fn least_of(batches: [Batch; 4], n: usize) -> u32
    requires { (0 < n) × (n ≤ 4) }
    ensures { result ≡ least (map batch_of (take n batches)) }
{
    let mut rows = batches[n - 1].rows;
    for k in (0..n - 1).rev() {
        rows = batches[k].rows.min(rows);
    }
    rows
}

// n rows with the columns of the first `count` batches.
fn joined(batches: [Batch; 4], count: usize, n: u32) -> Option<Batch>
    requires { count ≤ 4 }
    ensures { Joins n (map batch_of (take count batches)) result }
{
    let mut all = Batch::none().front(n);
    for i in 0..count {
        match all.beside(batches[i]) {
            Ok(wider) => all = wider,
            Err(_) => return None,
        }
    }
    Some(all)
}

impl Fronts {
    pub fn len(self) -> usize
        ensures { result ≡ length (fronts_of self) }
    {
        self.len.min(4)
    }

    // The least number of rows; 0 where there is no batch.
    pub fn least(self) -> u32
        ensures { result ≡ least (fronts_of self) }
    {
        let n = self.len();
        if n == 0 { 0 } else { least_of(self.batches, n) }
    }

    // The first n rows of every batch, side by side. Refused where that makes more than 4 columns.
    pub fn side_by_side(self, n: u32) -> Option<Batch>
        ensures { Joins n (fronts_of self) result }
    {
        joined(self.batches, self.len(), n)
    }
}
