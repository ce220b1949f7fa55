//! Decks run in one call, and modules.

use driver::{compile_deck, run_deck, run_module};
use model::{Ending, FormatFault, FormatRule, LoadFault, Status, Stop, UnitFault};
use std::alloc::Global;
use unit_io::{FailAt, MemUnits};

// Units 5 and 6, and no other.
fn opened(alloc: Global, input: &str) -> Result<MemUnits, UnitFault> {
    let mut units = MemUnits::new(alloc);
    units.open_input(5, input.as_bytes())?;
    units.open_output(6)?;
    Ok(units)
}

/// A deck, how many steps it runs at most, and which call of its units fails.
#[derive(Clone, Copy)]
struct Run<'a> {
    deck: &'a str,
    steps: u64,
    failing: u64,
}

// Whether the run has this status and has written these bytes; no status is a refusal.
fn comes(alloc: Global, run: Run<'_>, status: Option<Status>, printed: &str) -> bool {
    let Ok(inner) = opened(alloc, "A\n\nB") else {
        return false;
    };
    let mut units = FailAt::new(inner, run.failing);
    let found = run_deck(alloc, run.deck.as_bytes(), &mut units, run.steps);
    found.ok().map(|ran| ran.status) == status
        && units.into_inner().bytes(6) == Some(printed.as_bytes())
}

const NORMAL: Option<Status> = Some(Status::Ended(Ending::Normal));

const fn stopped(unit: u8, cause: UnitFault) -> Option<Status> {
    Some(Status::Stopped(Stop::Unit { unit, cause }))
}

const COPY: &str = "L OUTPUT = INPUT :S(L)\nEND\n";

const HELLO: &str = " OUTPUT = 'HI'\nEND\n";

#[test]
fn decks(rt: HostRuntime) {
    for (deck, steps, failing, status, printed) in [
        (COPY, 1_000, 0, NORMAL, "A\n\nB\n"),
        // a call of the units fails: the run stops there
        (COPY, 1_000, 1, stopped(5, UnitFault::ReadFailed), ""),
        (COPY, 1_000, 2, stopped(6, UnitFault::WriteFailed), ""),
        (COPY, 1_000, 5, stopped(5, UnitFault::ReadFailed), "A\n\n"),
        (
            COPY,
            1_000,
            7,
            stopped(5, UnitFault::ReadFailed),
            "A\n\nB\n",
        ),
        (COPY, 1_000, 8, NORMAL, "A\n\nB\n"),
        (
            " PUNCH = 'A'\nEND\n",
            1_000,
            0,
            stopped(7, UnitFault::NotOpen),
            "",
        ),
        // the record is written in the fourth step
        (HELLO, 3, 0, Some(Status::Running), ""),
        (HELLO, 4, 0, Some(Status::Running), "HI\n"),
        (HELLO, 6, 0, NORMAL, "HI\n"),
        // a refused deck
        (" X = 'A' # 'B'\nEND\n", 1_000, 0, None, ""),
    ] {
        let run = Run {
            deck,
            steps,
            failing,
        };
        assert!(rt; comes(rt.alloc(), run, status, printed), "{deck} {failing}");
    }
}

// Whether the deck's module runs to its end, and writes these bytes.
fn ends(alloc: Global, deck: &str, printed: &str) -> bool {
    let (Ok(module), Ok(mut units)) = (compile_deck(alloc, deck.as_bytes()), opened(alloc, ""))
    else {
        return false;
    };
    let status = run_module(alloc, &module, &mut units, 1_000);
    status.ok() == NORMAL && units.bytes(6) == Some(printed.as_bytes())
}

fn refuses(alloc: Global, bytes: &[u8], offset: usize, rule: FormatRule) -> bool {
    let found = run_module(alloc, bytes, &mut MemUnits::new(alloc), 1_000);
    found == Err(LoadFault::Format(FormatFault { offset, rule }))
}

#[test]
fn modules(rt: HostRuntime) {
    assert!(rt; ends(rt.alloc(), HELLO, "HI\n"));
    assert!(rt; refuses(rt.alloc(), b"SNO4", 4, FormatRule::Truncated));
}
