//! The program `sno`: compiles decks and runs modules.
#![tactic(auto)]

use program::{SystemFiles, run};
use std::process::ExitCode;

fn main(rt: HostRuntime) -> ExitCode {
    let mut files = SystemFiles::new(&rt);
    run(&rt, &mut files, &rt.stdin(), &rt.stdout(), &mut rt.stderr())
}
