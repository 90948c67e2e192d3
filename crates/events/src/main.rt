// The event program: standard input to standard output. Standard error is told why there is no state at the end, in one line.
#![tactic(auto)]

use std::io::{Empty, Stdout};
use streams::sink::{Sink, Target};

fn main(rt: HostRuntime) {
    let mut input = rt.stdin();
    let mut output: Target<Stdout, Empty> = Target::Write(rt.stdout());
    let mut sink = Sink::new();
    if let Err(error) = runner::run(&mut input, &mut output, &mut sink) {
        // Standard error may be closed.
        let _ = eprintln!(rt; "events: {error}");
    }
}
