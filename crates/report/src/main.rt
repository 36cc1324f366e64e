// The report program: a catalogue of graph sheets on standard input, its report on standard output (document 02, K1).
// Rests on reporting, which reads, feeds and writes.
#![tactic(auto)]

use input::ending;
use reporting::run;
use std::process::ExitCode;

fn main(rt: HostRuntime) -> ExitCode {
    ending(&rt, run(&mut rt.stdin(), &mut rt.stdout()))
}
