// What a pipeline waits for.
ghost use Rattle.std.specs.Prelude.{◌≡◌};
ghost use Rattle.rules.specs.Check.{state_ok};
ghost use Rattle.operator.specs.Pipeline.{state_of};

use operator::{SourceBlocked, State};

// Whether the state of the pipeline at a place with n inlets is in its range.
pub fn state_ok(p: usize, n: usize, x: State) -> bool
    ensures { result ≡ state_ok p n (state_of x) }
{
    match x {
        State::Runnable => true,
        State::Blocked(SourceBlocked::Io) => true,
        State::Blocked(SourceBlocked::Inlet(i)) => usize::from(i) < n,
        State::Outlet => p < 72,
    }
}
