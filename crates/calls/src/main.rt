// Single calls: the lines of standard input, answered one by one on standard output. Standard error is told what could not be read or
// written.
#![tactic(auto)]

use std::io::{Empty, Stdout};
use streams::sink::{Sink, Target};

fn main(rt: HostRuntime) {
    let mut input = rt.stdin();
    let mut output: Target<Stdout, Empty> = Target::Write(rt.stdout());
    let mut sink = Sink::new();
    if let Err(error) = caller::run(&mut input, &mut output, &mut sink) {
        // Standard error may be closed.
        let _ = eprintln!(rt; "calls: {error}");
    }
}
