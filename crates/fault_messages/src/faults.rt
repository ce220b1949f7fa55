//! Messages of decks and modules that are refused.

use crate::mistakes::{Mistake, mistake_in};
use card_reader::read_deck;
use card_text::{FaultPlace, columns, cut_text, locate, notes_of};
use codes::{Code, MEMORY_CODE, card_code, cause_code, format_code, rule_code};
use driver::Refusal;
use messages::{CardPlace, Cards, Message, Sources};
use model::{CardFault, CardRule, Cause, Deck, FormatRule, LoadFault, StmtFault};
use std::alloc::{AllocError, Global};

/// A message of a file as a whole.
pub(crate) fn of_whole(
    alloc: Global,
    file: &str,
    code: Code,
    text: String,
) -> Result<Message, AllocError> {
    let file = String::from_str(alloc, file)?;
    Ok(Message::new(file, CardPlace::whole(), code, text))
}

/// A message of want of memory.
pub fn of_memory(alloc: Global, file: &str) -> Result<Message, AllocError> {
    let text = String::from_str(alloc, MEMORY_CODE.text)?;
    of_whole(alloc, file, MEMORY_CODE, text)
}

fn byte_name(byte: u8) -> &'static str {
    match byte {
        b'\t' => ", a tab,",
        b'\r' => ", a carriage return,",
        0..=31 | 127 => ", a control character,",
        _ => "",
    }
}

// The first byte of a card that is neither a blank nor printable.
fn bad_byte(card: &[u8]) -> Option<(usize, u8)> {
    card.iter()
        .copied()
        .enumerate()
        .find(|pair| !(32..=126).contains(&pair.1))
}

// What is wrong with a card, and in which columns.
fn card_fault_text(
    alloc: Global,
    rule: CardRule,
    card: &[u8],
) -> Result<(Option<usize>, usize, String), AllocError> {
    let text = card_code(rule).text;
    match (rule, bad_byte(card)) {
        (CardRule::BadByte, Some((column, byte))) => {
            let name = byte_name(byte);
            let text = format!(in alloc; "the byte {byte}{name} is neither a blank nor printable")?;
            Ok((Some(column), 1, text))
        }
        (CardRule::NothingToContinue, _) => Ok((Some(0), 1, String::from_str(alloc, text)?)),
        (CardRule::UnknownControl, _) => {
            let read = columns(card);
            let end = read.iter().take_while(|byte| **byte != b' ').count();
            Ok((Some(0), end, String::from_str(alloc, text)?))
        }
        _ => Ok((None, 0, String::from_str(alloc, text)?)),
    }
}

fn of_card_fault(
    alloc: Global,
    sources: &Sources<'_>,
    fault: CardFault,
) -> Result<Message, AllocError> {
    let cards = Cards::of(alloc, sources.bytes())?;
    let (column, length, text) = card_fault_text(alloc, fault.rule, cards.card(fault.card))?;
    let (file, place) = sources.message_place(alloc, fault.card)?;
    let code = card_code(fault.rule);
    Ok(Message::new(file, place.at(column, length), code, text))
}

// How many columns a token takes that begins at a column of a card.
fn token_length(alloc: Global, card: &[u8], column: usize) -> Result<usize, AllocError> {
    let rest = columns(card).get(column..).unwrap_or(&[]);
    let pieces = cut_text(alloc, rest)?;
    match pieces.first() {
        Some(piece) => Ok(piece.end),
        None => Ok(0),
    }
}

// The byte of a card that begins no token, where a note is of one.
fn stray_byte(cards: &Cards<'_>, note: FaultPlace) -> Option<u8> {
    if note.cause != Cause::StrayByte {
        return None;
    }
    cards.card(note.card).get(note.column?).copied()
}

// What is wrong with a faulty statement.
fn note_text(
    alloc: Global,
    cards: &Cards<'_>,
    note: FaultPlace,
    mistake: Option<Mistake>,
) -> Result<String, AllocError> {
    let text = cause_code(note.cause).text;
    match (stray_byte(cards, note), mistake) {
        (Some(b'['), _) => String::from_str(alloc, "a [, which begins no token; write <"),
        (Some(b']'), _) => String::from_str(alloc, "a ], which begins no token; write >"),
        (_, Some(mistake)) => String::from_str(alloc, mistake.text()),
        (_, None) => String::from_str(alloc, text),
    }
}

fn of_note(
    alloc: Global,
    sources: &Sources<'_>,
    cards: &Cards<'_>,
    note: FaultPlace,
    mistake: Option<Mistake>,
) -> Result<Message, AllocError> {
    let code = cause_code(note.cause);
    let length = match note.column {
        Some(column) => token_length(alloc, cards.card(note.card), column)?,
        None => 0,
    };
    let text = note_text(alloc, cards, note, mistake)?;
    let (file, place) = sources.message_place(alloc, note.card)?;
    let place = place.at(note.column, length);
    Ok(Message::of_statement(file, place, i64::from(note.number), code, text))
}

fn of_notes(
    alloc: Global,
    sources: &Sources<'_>,
    notes: &[FaultPlace],
    mistakes: &[Option<Mistake>],
) -> Result<Vec<Message>, AllocError> {
    let cards = Cards::of(alloc, sources.bytes())?;
    let mut messages = Vec::new(alloc);
    for (note, mistake) in notes.iter().copied().zip(mistakes.iter().copied()) {
        messages.push(of_note(alloc, sources, &cards, note, mistake)?)?;
    }
    Ok(messages)
}

// The mistake that is seen in a statement that has no form that is permitted, and where in its text it stands.
fn mistake_of(
    alloc: Global,
    deck: &Deck,
    note: FaultPlace,
) -> Result<Option<(Mistake, usize)>, AllocError> {
    let index = note.number.saturating_sub(1) as usize;
    match deck.statements.as_slice().get(index) {
        Some(statement) if note.cause == Cause::NoTree => {
            mistake_in(alloc, statement.text.as_slice())
        }
        _ => Ok(None),
    }
}

// The mistakes of noted statements. Where there is one, the statement is reported there.
fn mistakes_of(
    alloc: Global,
    deck: &Deck,
    notes: &mut [FaultPlace],
) -> Result<Vec<Option<Mistake>>, AllocError> {
    let mut mistakes = Vec::new(alloc);
    for note in notes {
        let mistake = match mistake_of(alloc, deck, *note)? {
            Some((mistake, place)) => {
                note.place = Some(place);
                Some(mistake)
            }
            None => None,
        };
        mistakes.push(mistake)?;
    }
    Ok(mistakes)
}

fn of_statements(
    alloc: Global,
    sources: &Sources<'_>,
    faults: &[StmtFault],
) -> Result<Vec<Message>, AllocError> {
    match read_deck(alloc, sources.bytes()) {
        Ok(deck) => {
            let mut notes = notes_of(alloc, &deck, faults)?;
            let mistakes = mistakes_of(alloc, &deck, notes.as_mut_slice())?;
            locate(sources.bytes(), notes.as_mut_slice());
            of_notes(alloc, sources, &notes, &mistakes)
        }
        // A deck whose statements are faulty has no card fault, so memory was refused.
        Err(_) => only(alloc, of_memory(alloc, sources.last_name())?),
    }
}

// One message alone.
fn only(alloc: Global, message: Message) -> Result<Vec<Message>, AllocError> {
    let mut messages = Vec::new(alloc);
    messages.push(message)?;
    Ok(messages)
}

/// The messages of a deck that is refused.
pub fn of_refusal(
    alloc: Global,
    sources: &Sources<'_>,
    refusal: &Refusal,
) -> Result<Vec<Message>, AllocError> {
    let message = match refusal {
        Refusal::Card(fault) => of_card_fault(alloc, sources, *fault)?,
        Refusal::Statements(faults) => return of_statements(alloc, sources, faults.as_slice()),
        Refusal::Memory => of_memory(alloc, sources.last_name())?,
    };
    only(alloc, message)
}

// The code of a module's fault, and the offset at which it is reported; nothing for want of memory.
fn load_code(fault: LoadFault) -> Option<(Code, usize)> {
    match fault {
        LoadFault::Format(fault) if fault.rule == FormatRule::Memory => None,
        LoadFault::Format(fault) => Some((format_code(fault.rule), fault.offset)),
        LoadFault::Module(fault) => Some((rule_code(fault.rule), fault.offset)),
    }
}

/// The message of a module that is refused.
pub fn of_module(alloc: Global, file: &str, fault: LoadFault) -> Result<Message, AllocError> {
    let Some((code, offset)) = load_code(fault) else {
        return of_memory(alloc, file);
    };
    let means = code.text;
    let text = format!(in alloc; "at offset {offset}: {means}")?;
    of_whole(alloc, file, code, text)
}
