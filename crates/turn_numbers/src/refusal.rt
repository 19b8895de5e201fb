// An opening as numbers: 0 or the number of a refusal, and the index of a run at fault.
ghost use Rattle.std.specs.Prelude.{◌≡◌};
ghost use Rattle.turn_numbers.specs.Numbers.{verdict_number, run_written};

use turn::Told;

// There is no room for a turn's numbers.
pub const NO_ROOM: u8 = 255;

// An opening's number, whatever it is. The index of a run at fault is written to its place; without one the place stays as it is.
pub fn opened(v: Result<(), Told>, run: &mut u32) -> u8
    ensures value { result ≡ verdict_number v }
    ensures run_after { run.new ≡ run_written v run.old }
{
    let Err(t) = v else {
        return 0;
    };
    if let Some(i) = t.run {
        *run = u32::from(i);
    }
    t.number
}
