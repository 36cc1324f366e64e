// The report program once more, for a stored run: an empty input.
// Rests on reporting, which reads, feeds and writes.
#![tactic(auto)]

use input::ending;
use reporting::run;
use std::process::ExitCode;

fn main(rt: HostRuntime) -> ExitCode {
    ending(&rt, run(&mut rt.stdin(), &mut rt.stdout()))
}
