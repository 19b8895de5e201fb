// Document 01, "Sessions", of an input that still comes, piece by piece: what can be said of the bytes that are there, before the others are.
// `task` says what is to be done with them, by what the session has come to and by what may follow; nothing is opened and no call is answered
// here, which is `session`'s. `specs/Turned.antt` says what each task does. The law is in `specs/Pieces.antt`: whatever pieces an input comes in,
// what is said joined is the rule's session of the pieces joined, also where a job is longer than the room for it.
#![tactic(auto)]

pub mod tasks; // tasks.rt: what is to be done

use call_records::Call;
use turn::Told;

// What may follow the bytes that are there: more, for which there is room; more, for which there is none; or nothing.
#[derive(Clone, Copy)]
pub enum Coming {
    More,
    Full,
    Ended,
}

// What a session has come to. Skip: a split has too many runs, of which so many bytes are still to come; the job comes to the first verdict, and to
// the second if the input ends before.
#[derive(Clone, Copy)]
pub enum Phase {
    Job,
    Skip(usize, Result<(), Told>, Result<(), Told>),
    Calls,
    Over,
}

// What is to be done. Wait: nothing before more comes. Open: so many bytes are a job. Skip: at a position stands a split that takes so many bytes,
// more than there is room for. Pass: all bytes are such a split's, and the phase is the next. Tell: the verdict ends the session. Answer: a call, none
// where it is bad, and where it ends; a bad one takes all bytes. End: the session is over.
#[derive(Clone, Copy)]
pub enum Task {
    Wait,
    Open(usize),
    Skip(usize, usize),
    Pass(Phase),
    Tell(Result<(), Told>),
    Answer(Option<Call>, usize),
    End,
}
