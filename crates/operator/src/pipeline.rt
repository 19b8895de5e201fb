// The state that a stopped pipeline is in.
ghost use Rattle.std.specs.Prelude.{◌≡◌};
ghost use Rattle.rules.specs.Wake.{is_on, at_outlet, with_state, with_queued};
ghost use Rattle.rules.specs.Pipelines.{fresh, numbered, gone};
ghost use Rattle.operator.specs.Pipeline.{state_of, pipeline_of};

use crate::answer::SourceBlocked;

#[derive(Clone, Copy)]
pub enum State {
    Runnable,
    Blocked(SourceBlocked),
    Outlet,
}

// `queued`: it stands on the ready stack.
#[derive(Clone, Copy)]
pub struct Pipeline {
    pub live: bool,
    pub state: State,
    pub queued: bool,
    pub number: u8,
}

impl State {
    // Blocked on this inlet.
    pub fn is_on(self, inlet: u8) -> bool
        ensures { result ≡ is_on (state_of self) inlet }
    {
        matches!(self, State::Blocked(SourceBlocked::Inlet(i)) if i == inlet)
    }

    pub fn at_outlet(self) -> bool
        ensures { result ≡ at_outlet (state_of self) }
    {
        matches!(self, State::Outlet)
    }
}

impl Pipeline {
    // Live and runnable, with no number yet.
    pub fn fresh() -> Pipeline
        ensures { pipeline_of result ≡ fresh }
    {
        Pipeline {
            live: true,
            state: State::Runnable,
            queued: false,
            number: 0,
        }
    }

    pub fn numbered(self, number: u8) -> Pipeline
        ensures { pipeline_of result ≡ numbered number (pipeline_of self) }
    {
        Pipeline { number, ..self }
    }

    pub fn with_state(self, state: State) -> Pipeline
        ensures { pipeline_of result ≡ with_state (state_of state) (pipeline_of self) }
    {
        Pipeline { state, ..self }
    }

    pub fn with_queued(self, queued: bool) -> Pipeline
        ensures { pipeline_of result ≡ with_queued queued (pipeline_of self) }
    {
        Pipeline { queued, ..self }
    }

    // What a pipeline that is done leaves at its place.
    pub fn gone(self) -> Pipeline
        ensures { pipeline_of result ≡ gone (pipeline_of self) }
    {
        Pipeline {
            live: false,
            ..Pipeline::fresh()
        }
    }
}
