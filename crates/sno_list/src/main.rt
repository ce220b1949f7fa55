//! The program `sno_list`: lists decks, and explains their faults and the errors of runs.
#![tactic(auto)]

use listing::run;
use std::process::ExitCode;

fn main(rt: HostRuntime) -> ExitCode {
    run(&rt, &rt.stdin(), &rt.stdout(), &mut rt.stderr())
}
