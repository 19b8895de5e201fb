// A list of sessions with the answers of the Rust, replayed: how many there are, and how many are answered alike. docs/DIFFERENCES.md says
// how the list was made. Proved of each session that is replayed, and of any reader whose bytes a contract knows: it stood next in the list
// (specs/Parts.antt), and it counts as alike just where its answers are the rule's session of its input, as far as there is room for them (`one::replay`).
// Not proved, since no contract of std says it: what bytes standard input hands over, and that the line of output is written.
#![tactic(auto)]

mod list; // list.rt: the list as it is read
mod one; // one.rt: one session replayed

use std::io::Write;

// A line of output: a name and two numbers. Where nobody takes it, it is lost.
fn line<W: Write>(output: &mut W, name: &str, first: u64, last: u64) {
    let _ = writeln!(output, "{name} {first} {last}");
}

fn main(rt: HostRuntime) {
    let mut list = rt.stdin();
    let mut input = [0u8; 65536];
    let mut answers = [0u8; 65536];
    let mut sessions: u64 = 0;
    let mut alike: u64 = 0;
    // kept: the count is printed after the loop, which ends where the list does, so that a `for` would have to keep it beside its own.
    while sessions < 1000000 {
        let Some(same) = one::replay(&mut list, &mut input, &mut answers) else {
            break;
        };
        alike += u64::from(same);
        sessions += 1;
    }
    line(&mut rt.stdout(), "sessions, alike:", sessions, alike);
}
