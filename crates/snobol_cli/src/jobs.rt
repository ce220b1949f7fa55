//! What is done for each row of the table of words.

use crate::files::{Outcome, write_file};
use crate::included::read_whole;
use crate::looking::{check, how_for, list_decks};
use crate::porting::port_deck;
use crate::reporting::{form_for, report_alone, report_outcome, unwritten};
use crate::running::{Asked, run_decks};
use crate::showing::{show_module, show_with_cards};
use crate::statuses::{BAD_WORDS, DONE, FAILED};
use codes::{Code, code_named};
use driver::{FinalReport, compile_deck};
use messages::Form;
use snobol_words::Request;
use std::env::Env;
use std::fs::Files;
use std::io::{self, Input, IsTerminal, Print, Write};

fn print_code<R: Print>(rt: &R, code: Code) -> io::Result<()> {
    println!(rt; "{}: {}\n\n{}", code.name, code.text, code.help)?;
    if code.deck.is_empty() {
        return Ok(());
    }
    let how = if code.name.starts_with("E") {
        "ends"
    } else {
        "is refused"
    };
    println!(rt; "\nA deck that {how} so:\n\n{}", code.deck)
}

fn explain<R: Files + Print + AllocGlobal, W: Write>(rt: &R, name: &str, errors: &mut W) -> u8 {
    let Some(code) = code_named(name) else {
        return match writeln!(errors, "error: no code '{name}'") {
            Ok(()) => BAD_WORDS,
            Err(_) => FAILED,
        };
    };
    match print_code(rt, code) {
        Ok(()) => DONE,
        Err(_) => unwritten(rt, Form::Lines, errors),
    }
}

fn compile<R: Env + Files + Input + AllocGlobal, W: Write>(
    rt: &R,
    deck: &str,
    module: &str,
    form: Form,
    errors: &mut W,
) -> u8 {
    let alloc = rt.alloc();
    let sources = match read_whole(rt, &[deck], form, errors) {
        Ok(sources) => sources,
        Err(status) => return status,
    };
    match compile_deck(alloc, sources.bytes()) {
        Ok(spelling) => match write_file(rt, module, &spelling) {
            Ok(()) => DONE,
            Err(outcome) => report_alone(alloc, form, &outcome, module, errors),
        },
        Err(refusal) => {
            let outcome = Outcome::from(FinalReport::Refused(refusal));
            report_outcome(alloc, form, &outcome, &sources, &[], module, errors)
        }
    }
}

/// Does what it is asked to do, writes messages to `errors`, and returns the exit status.
pub(crate) fn perform<R: Env + Files + Input + Print + AllocGlobal, W: Write + IsTerminal>(
    rt: &R,
    job: Request<'_>,
    errors: &mut W,
) -> u8 {
    match job {
        Request::Run {
            given,
            records,
            steps,
            port,
            reports,
            form,
        } => {
            let asked = Asked {
                records: &records,
                steps,
                port,
                reports,
                form: form_for(rt, form, &*errors),
            };
            run_decks(rt, &given, asked, errors)
        }
        Request::Check { decks, reporting } => {
            let how = how_for(rt, reporting, &*errors);
            check(rt, &decks, how, errors)
        }
        Request::List {
            decks,
            has_code,
            reporting,
        } => {
            let how = how_for(rt, reporting, &*errors);
            list_decks(rt, &decks, has_code, how, errors)
        }
        Request::Explain { code } => explain(rt, code, errors),
        Request::Compile { deck, module, form } => {
            let form = form_for(rt, form, &*errors);
            compile(rt, deck, module, form, errors)
        }
        Request::Port { deck, folds, form } => {
            let form = form_for(rt, form, &*errors);
            port_deck(rt, deck, folds, form, errors)
        }
        Request::Show {
            module,
            source,
            form,
        } => {
            let form = form_for(rt, form, &*errors);
            match source {
                Some(deck) => show_with_cards(rt, module, deck, form, errors),
                None => show_module(rt, module, form, errors),
            }
        }
    }
}
