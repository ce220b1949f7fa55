//! Tables: a count, and that many entries.

ghost use Rattle.std.specs.Prelude.{◌≡◌, ℕ, List, Result, []};
ghost use Rattle.model.specs.declared.format.Miss.{Miss};
ghost use Rattle.model.specs.declared.image.Level.TheVariants as levels;
ghost use Rattle.model.specs.Module.Reading.{Gives, Reads, entries_from, table_at, label_at};
ghost use Rattle.model.specs.Module.Reading.{statement_at, card_at, cards_at, offset_at};
ghost use Rattle.model.specs.Module.Reading.{pat_instr_at, pattern_at};
ghost use Rattle.model.specs.Module.Spelling.{falls, newest};

use crate::fields::{MOST, miss, read_count};
use code_format::{first_pat_instr, read_u32};
use model::{FormatRule, Label, Level, Miss, PatInstr, ReadError, Seq, Version};
use std::alloc::Global;

/// A kind of table.
pub(crate) trait Table {
    type Entry: Drop;

    /// What an entry's bytes are read as behind the entries before it.
    ghost entry: { List Self.Entry → List ℕ → Result (Self.Entry × List ℕ) Miss };

    /// An entry, and the bytes behind it.
    fn read_entry<'a>(
        alloc: Global,
        earlier: &[Self::Entry],
        bytes: &'a [u8],
    ) -> Result<(Self::Entry, &'a [u8]), ReadError>
        ensures { Gives (λ x. (x.0, x.1.now)) result (entry earlier.now bytes.now) };
}

// So many entries of one kind, and the bytes behind them. Nothing is reserved for the count.
fn read_entries<T: Table>(
    alloc: Global,
    n: usize,
    bytes: &[u8],
) -> Result<(Seq<T::Entry>, &[u8]), ReadError>
    ensures { Gives (λ x. (x.0, x.1.now)) result (entries_from T.entry [] n bytes.now) }
{
    let mut items = Vec::new(alloc);
    let mut rest = bytes;
    for _ in 0..n {
        let (item, behind) = T::read_entry(alloc, items.as_slice(), rest)?;
        items.push(item)?;
        rest = behind;
    }
    Ok((Seq::from_vec(items), rest))
}

/// A table of one kind, and the bytes behind it.
#[tactic(auto, unfolding(model::specs::Module::Reading::table_at))]
pub(crate) fn read_table<T: Table>(
    alloc: Global,
    bytes: &[u8],
) -> Result<(Seq<T::Entry>, &[u8]), ReadError>
    ensures { Gives (λ x. (x.0, x.1.now)) result (table_at T.entry bytes.now) }
{
    let (n, rest) = read_count(MOST, bytes)?;
    read_entries::<T>(alloc, n as usize, rest)
}

/// Labels, whose statements rise.
pub(crate) struct Labels;

impl Table for Labels {
    type Entry = Label;

    ghost entry = { label_at };

    #[tactic(auto, unfolding(model::specs::Module::Reading::label_at))]
    fn read_entry<'a>(
        _alloc: Global,
        earlier: &[Label],
        bytes: &'a [u8],
    ) -> Result<(Label, &'a [u8]), ReadError> {
        let (string, rest) = read_u32(bytes)?;
        let (statement, rest) = read_u32(rest)?;
        match earlier.last() {
            Some(newest) if statement <= newest.statement => {
                Err(ReadError::Fault(miss(FormatRule::BadTable, bytes)))
            }
            _ => Ok((Label { string, statement }, rest)),
        }
    }
}

/// The offsets of statements, which rise.
pub(crate) struct Statements;

impl Table for Statements {
    type Entry = u32;

    ghost entry = { statement_at };

    #[tactic(auto, unfolding(model::specs::Module::Reading::statement_at))]
    fn read_entry<'a>(
        _alloc: Global,
        earlier: &[u32],
        bytes: &'a [u8],
    ) -> Result<(u32, &'a [u8]), ReadError> {
        let (n, rest) = read_u32(bytes)?;
        match earlier.last() {
            Some(newest) if n <= *newest => Err(ReadError::Fault(miss(
                FormatRule::BadTable,
                bytes,
            ))),
            _ => Ok((n, rest)),
        }
    }
}

// Whether a card is less than the newest of those before it, or than 1.
fn falls(earlier: &[u32], card: u32) -> bool
    ensures { result ≡ falls (newest earlier.now) card }
{
    match earlier.last() {
        Some(newest) => card < *newest,
        None => card < 1,
    }
}

// The cards of level 2.
struct Cards;

impl Table for Cards {
    type Entry = u32;

    ghost entry = { card_at levels.Two };

    #[tactic(auto, unfolding(model::specs::Module::Reading::card_at))]
    fn read_entry<'a>(
        _alloc: Global,
        earlier: &[u32],
        bytes: &'a [u8],
    ) -> Result<(u32, &'a [u8]), ReadError> {
        let (card, rest) = read_u32(bytes)?;
        if falls(earlier, card) {
            return Err(ReadError::Fault(miss(FormatRule::BadTable, bytes)));
        }
        Ok((card, rest))
    }
}

// The cards of level 1, which aren't known.
struct NoCards;

impl Table for NoCards {
    type Entry = u32;

    ghost entry = { card_at levels.One };

    #[tactic(auto, unfolding(model::specs::Module::Reading::card_at))]
    fn read_entry<'a>(
        _alloc: Global,
        _earlier: &[u32],
        bytes: &'a [u8],
    ) -> Result<(u32, &'a [u8]), ReadError> {
        let (card, rest) = read_u32(bytes)?;
        if card != 0 {
            return Err(ReadError::Fault(miss(FormatRule::BadTable, bytes)));
        }
        Ok((card, rest))
    }
}

/// A card for each of so many statements, and the bytes behind them; in version 1 there are none.
#[tactic(auto, unfolding(model::specs::Module::Reading::cards_at))]
pub(crate) fn read_cards(
    alloc: Global,
    version: Version,
    level: Level,
    n: usize,
    bytes: &[u8],
) -> Result<(Seq<u32>, &[u8]), ReadError>
    ensures { Gives (λ x. (x.0, x.1.now)) result (cards_at version level n bytes.now) }
{
    match version {
        Version::One => {
            let cards = vec![in alloc; 0; n]?;
            Ok((Seq::from_vec(cards), bytes))
        }
        Version::Two => match level {
            Level::One => read_entries::<NoCards>(alloc, n, bytes),
            Level::Two => read_entries::<Cards>(alloc, n, bytes),
        },
    }
}

/// The offsets of expressions, in any order.
pub(crate) struct Expressions;

impl Table for Expressions {
    type Entry = u32;

    ghost entry = { offset_at };

    #[tactic(auto, unfolding(model::specs::Module::Reading::offset_at))]
    fn read_entry<'a>(
        _alloc: Global,
        _earlier: &[u32],
        bytes: &'a [u8],
    ) -> Result<(u32, &'a [u8]), ReadError> {
        Ok(read_u32(bytes)?)
    }
}

/// The instructions of one pattern.
struct Pattern;

impl Table for Pattern {
    type Entry = PatInstr;

    ghost entry = { pat_instr_at };

    #[tactic(auto, unfolding(model::specs::Module::Reading::pat_instr_at))]
    fn read_entry<'a>(
        _alloc: Global,
        _earlier: &[PatInstr],
        bytes: &'a [u8],
    ) -> Result<(PatInstr, &'a [u8]), ReadError> {
        Ok(first_pat_instr(bytes)?)
    }
}

/// Patterns, each a table itself.
pub(crate) struct Patterns;

impl Table for Patterns {
    type Entry = Seq<PatInstr>;

    ghost entry = { pattern_at };

    #[tactic(auto, unfolding(model::specs::Module::Reading::pattern_at))]
    fn read_entry<'a>(
        alloc: Global,
        _earlier: &[Seq<PatInstr>],
        bytes: &'a [u8],
    ) -> Result<(Seq<PatInstr>, &'a [u8]), ReadError> {
        read_table::<Pattern>(alloc, bytes)
    }
}
