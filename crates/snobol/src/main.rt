//! The program `snobol`: compiles and runs decks, and says what is wrong with them, for people.
#![tactic(auto)]

use snobol_cli::run;
use std::process::ExitCode;

fn main(rt: HostRuntime) -> ExitCode {
    run(&rt, &rt.stdin(), &rt.stdout(), &mut rt.stderr())
}
