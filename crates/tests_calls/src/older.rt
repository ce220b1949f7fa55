//! Modules of version 1 of the format, and the cards that are reported beside a run's status.

use driver::{compile_deck, run_module, run_with_card, upgrade};
use model::{
    Ending, ErrorCode, FormatFault, FormatRule, LoadFault, ModuleFault, ModuleRule, Status,
};
use std::alloc::Global;
use unit_io::MemUnits;

// ` X = 1 / 0`, `END` in version 1 of the format, and the same in version 2.
const OLD: &[u8] = &[
    83, 78, 79, 52, 0, 1, 0, 0, 0, 1, 0, 0, 0, 1, 0, 0, 0, 1, 88, 0, 0, 0, 0, 0, 0, 0, 2, 0, 0, 0,
    0, 0, 0, 0, 32, 0, 0, 0, 0, 0, 0, 0, 0, 0, 0, 0, 33, 1, 0, 0, 0, 32, 10, 0, 0, 0, 0, 8, 0, 0,
    0, 0, 0, 0, 0, 1, 8, 0, 0, 0, 0, 0, 0, 0, 0, 28, 3, 16, 2, 0,
];

const NEW: &[u8] = &[
    83, 78, 79, 52, 0, 2, 0, 1, 0, 0, 0, 1, 0, 0, 0, 1, 0, 0, 0, 1, 88, 0, 0, 0, 0, 0, 0, 0, 2, 0,
    0, 0, 0, 0, 0, 0, 32, 0, 0, 0, 0, 0, 0, 0, 0, 0, 0, 0, 0, 0, 0, 0, 0, 0, 0, 0, 33, 1, 0, 0, 0,
    32, 10, 0, 0, 0, 0, 8, 0, 0, 0, 0, 0, 0, 0, 1, 8, 0, 0, 0, 0, 0, 0, 0, 0, 28, 3, 16, 2, 0,
];

// Whether the bytes are upgraded to these.
fn becomes(alloc: Global, old: &[u8], new: &[u8]) -> bool {
    match upgrade(alloc, old) {
        Ok(found) => found.as_slice() == new,
        Err(_) => false,
    }
}

fn format(offset: usize, rule: FormatRule) -> LoadFault {
    LoadFault::Format(FormatFault { offset, rule })
}

fn unfit(offset: usize, rule: ModuleRule) -> LoadFault {
    LoadFault::Module(ModuleFault { offset, rule })
}

// The bytes with one of them changed.
fn changed(alloc: Global, bytes: &[u8], at: usize, to: u8) -> Option<Vec<u8>> {
    let mut found = Vec::new(alloc);
    found.extend_from_slice(bytes).ok()?;
    *found.get_mut(at)? = to;
    Some(found)
}

// Whether upgrading refuses the older module so, once a byte is changed.
fn refuses(alloc: Global, at: usize, to: u8, fault: LoadFault) -> bool {
    match changed(alloc, OLD, at, to) {
        Some(bytes) => upgrade(alloc, bytes.as_slice()).err() == Some(fault),
        None => false,
    }
}

#[test]
fn upgrades(rt: HostRuntime) {
    assert!(rt; becomes(rt.alloc(), OLD, NEW));
    let version = Some(format(4, FormatRule::BadVersion));
    assert!(rt; upgrade(rt.alloc(), NEW).err() == version);
    let ran = run_module(rt.alloc(), OLD, &mut MemUnits::new(rt.alloc()), 9);
    assert!(rt; ran.err() == version);
    for k in 0..OLD.len() {
        let fault = format(k, FormatRule::Truncated);
        assert!(rt; upgrade(rt.alloc(), &OLD[..k]).err() == Some(fault), "{k}");
    }
    for (at, to, fault) in [
        (0, 0, format(0, FormatRule::BadMagic)),
        (9, 3, unfit(6, ModuleRule::BadIndex)),
        (10, 255, format(10, FormatRule::BadTable)),
        (46, 32, format(79, FormatRule::TrailingBytes)),
        (75, 255, format(75, FormatRule::UnknownInstruction)),
        (51, 33, unfit(47, ModuleRule::BadTarget)),
        (77, 23, unfit(78, ModuleRule::BadFlow)),
        (79, 6, unfit(79, ModuleRule::NoEnd)),
    ] {
        assert!(rt; refuses(rt.alloc(), at, to, fault), "{at}");
    }
}

// Whether the module's run ends so, and this card is reported.
fn tells(alloc: Global, module: &[u8], ending: Ending, card: u32) -> bool {
    match run_with_card(alloc, module, &mut MemUnits::new(alloc), 1_000) {
        Ok(ran) => ran.status == Status::Ended(ending) && ran.card == card,
        Err(_) => false,
    }
}

fn compiled_tells(alloc: Global, deck: &str, ending: Ending, card: u32) -> bool {
    match compile_deck(alloc, deck.as_bytes()) {
        Ok(module) => tells(alloc, &module, ending, card),
        Err(_) => false,
    }
}

fn overflow(statement: i64) -> Ending {
    Ending::Error {
        code: ErrorCode::Arithmetic,
        statement,
    }
}

#[test]
fn cards(rt: HostRuntime) {
    assert!(rt; tells(rt.alloc(), NEW, overflow(1), 0));
    let limit = Ending::StLimit { statement: 2 };
    for (deck, ending, card) in [
        ("END\n", Ending::Normal, 0),
        (" X = 1 / 0\nEND\n", overflow(1), 1),
        // comments, control cards, continuations and statements on one card
        ("* C\n-LIST\n\n X = 1 /\n+ 0\nEND\n", overflow(1), 4),
        (" Y = 2; X = 1 / 0\nEND\n", overflow(2), 1),
        (
            " Y = 2;\n;\n+; Z = 3; X = 1\n*\n+ / 0\nEND\n",
            overflow(3),
            3,
        ),
        (" &STLIMIT = 1\n*\n X = 2\nEND\n", limit, 3),
    ] {
        assert!(rt; compiled_tells(rt.alloc(), deck, ending, card), "{deck}");
    }
}
