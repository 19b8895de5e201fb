// A batch in its record: the number of columns, the rows, the columns' segments and their first rows.
ghost use Rattle.std.specs.Prelude.{◌≡◌, ◌≤◌, length};
ghost use Rattle.batches.specs.Batch.{batch_of};
ghost use Rattle.tables.specs.Decode.{batch};

use batches::Batch;
use layout::words;

// The batch of a record; one without rows where it has too many columns.
// kept: no Option, since `view` reads such bytes as that batch, and each load is an equation with it.
pub fn get_batch(r: &[u8]) -> Batch
    requires { length r.now ≡ 37 }
    ensures result_value { batch_of result ≡ batch r.now }
    ensures width_bound { result.width ≤ 4 }
{
    let width = usize::from(r[0]);
    if 4 < width {
        return Batch {
            rows: 0,
            width: 0,
            segment: [0; 4],
            first: [0; 4],
        };
    }
    let mut w = [0; 9];
    words::get_words(&r[1..37], &mut w);
    Batch {
        rows: w[0],
        width,
        segment: [w[1], w[2], w[3], w[4]],
        first: [w[5], w[6], w[7], w[8]],
    }
}

// A batch into its record.
pub fn put_batch(r: &mut [u8], b: Batch)
    requires r_len { length r.old ≡ 37 }
    requires width_bound { b.width ≤ 4 }
    ensures { batch r.new ≡ batch_of b }
{
    let [s0, s1, s2, s3] = b.segment;
    let [f0, f1, f2, f3] = b.first;
    words::put_words(&mut r[1..37], &[b.rows, s0, s1, s2, s3, f0, f1, f2, f3]);
    r[0] = b.width as u8;
}
