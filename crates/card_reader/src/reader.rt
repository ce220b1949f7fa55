//! The reader: the statements so far, the piece that may go on, and the least fault.

ghost use Rattle.std.specs.Prelude.{◌≡◌, ◌≤◌, ◌<◌, ◌+◌, ℕ, true, false, [], ◌∷◌, ◌++◌, length};
ghost use Rattle.std.specs.Prelude.{take, List, Option, Some, None, OnOk, IfOk, IfErr, Ok, Err};
ghost use Rattle.std.specs.Prelude.{is_some, if◌then◌else◌, nat_lt};
ghost use Rattle.model.specs.Deck.Cards as cards;
ghost use Rattle.card_reader.specs.Parts as parts;
ghost use Rattle.card_reader.specs.Parts.{Parts, appended, nothing, step};
ghost use Rattle.card_reader.specs.Reached.{answer};
ghost use Rattle.model.specs.declared.cards.CardFault.{CardFault};
ghost use Rattle.model.specs.declared.cards.CardRule.TheVariants as rule;
ghost use Rattle.card_reader.specs.Reading.{IsStop, IsRead, IsPieceEnd, IsCardRead, Waits, Holds, Others};
ghost use Rattle.card_reader.specs.Reading.{IsClosed, bad_byte, kind_fault, card_fault, kind_of};
ghost use Rattle.card_reader.specs.Reading.{text_length, merge, pieces_now};

use crate::kinds::{Kind, card_kind, columns_of, is_blank, is_end_statement, is_plain_line};
use crate::views::{DeckView, Growing, StatementView};
use bumpalo::Bump;
use memchr::memchr3;
use model::{CardFault, CardRule, Seq};
use std::alloc::{AllocError, Global};
use std::mem;

/// The most bytes of a statement.
const LONGEST_STATEMENT: usize = 4_000;

/// Where the next piece ends.
pub(crate) enum Stop {
    /// At a semicolon, so many bytes ahead.
    Semicolon(usize),
    /// Not in these bytes; the quote of the literal that is open behind them.
    End(Option<u8>),
}

/// What is read of a deck.
pub(crate) struct Reader<'a> {
    /// Where texts are kept that stand on several cards.
    arena: &'a Bump,
    statements: Seq<StatementView<'a>>,
    /// The piece that may go on, and the card of its first byte.
    piece: Growing<'a>,
    piece_card: u32,
    /// The quote of the literal that is open at its end.
    quote: Option<u8>,
    /// Whether a text has begun.
    begun: bool,
    /// The least fault so far.
    fault: Option<CardFault>,
}

impl<'a> Drop for Reader<'a> {
    fn drop(self) {
        let Reader {
            arena: _,
            statements: _,
            piece: _,
            piece_card: _,
            quote: _,
            begun: _,
            fault: _,
        } = self;
    }
}

// The quote of the literal that is open behind this byte, which is no semicolon outside literals.
fn next_quote(quote: Option<u8>, byte: u8) -> Option<u8>
    ensures { result ≡ parts.next_quote quote byte }
{
    match quote {
        Some(q) if byte == q => None,
        Some(q) => Some(q),
        None if byte == b'\'' || byte == b'"' => Some(byte),
        None => None,
    }
}

// Whether no byte of a text is a semicolon or a quote.
fn is_dull(text: &[u8]) -> bool
    ensures { result ≡ true → parts.IsDull text.now }
{
    match memchr3(b';', b'\'', b'"', text) {
        Some(_) => false,
        None => true,
    }
}

// Where the piece that goes on with this text ends, from within this literal or none.
fn piece_end(quote: Option<u8>, text: &[u8]) -> Stop
    ensures { IsStop quote text.now result }
{
    if quote.is_none() && is_dull(text) {
        return Stop::End(None);
    }
    let mut quote = quote;
    for (i, b) in text.iter().enumerate() {
        if quote.is_none() && *b == b';' {
            return Stop::Semicolon(i);
        }
        quote = next_quote(quote, *b);
    }
    Stop::End(quote)
}

fn rank(rule: CardRule) -> u8
    ensures { result ≡ cards.rank rule }
{
    match rule {
        CardRule::BadByte => 1,
        CardRule::NothingToContinue => 2,
        CardRule::UnknownControl => 3,
        CardRule::NoEnd => 4,
        CardRule::DeckTooLong => 5,
        CardRule::StatementTooLong => 6,
        CardRule::Memory => 7,
    }
}

// Whether a fault is told before another: by card, then by rule.
fn is_less(a: CardFault, b: CardFault) -> bool
    ensures { result ≡ cards.is_less a b }
{
    a.card < b.card || (a.card == b.card && rank(a.rule) < rank(b.rule))
}

// The lesser of a fault, if there is one, and another.
fn lesser(fault: Option<CardFault>, other: CardFault) -> CardFault
    ensures { Some result ≡ merge fault (Some other) }
{
    match fault {
        Some(fault) if !is_less(other, fault) => fault,
        _ => other,
    }
}

impl<'a> Reader<'a> {
    /// The reader before the first card.
    pub(crate) fn new(alloc: Global, arena: &'a Bump) -> Reader<'a>
        ensures empty { Holds result nothing None }
        ensures begun { result.begun ≡ false }
        ensures statements { result.statements ≡ [] }
    {
        Reader {
            arena,
            statements: Seq::new(alloc),
            piece: Growing::new(alloc),
            piece_card: 0,
            quote: None,
            begun: false,
            fault: None,
        }
    }

    // Tells a fault, unless a lesser one is told.
    fn note(&mut self, card: u32, rule: CardRule)
        ensures { self.new ≡ record self.old {
          fault = merge self.old.fault
              (Some (cards.fault card rule));
        } }
    {
        self.fault = Some(lesser(self.fault, CardFault { card, rule }));
    }

    // Appends bytes of a card to the piece.
    fn extend(&mut self, card: u32, text: &'a [u8]) -> Result<(), AllocError>
        ensures piece { OnOk result (self.new.piece ≡ self.old.piece ++ text.now) }
        ensures card { self.new.piece_card
            ≡ (if nat_lt 0 (length self.old.piece) then self.old.piece_card else card) }
        ensures others { Others self.old self.new }
    {
        if self.piece.as_slice().is_empty() {
            self.piece_card = card;
        }
        self.piece.extend(text)?;
        Ok(())
    }

    // Ends the piece, which becomes a statement unless it is blank.
    fn close_piece(&mut self, alloc: Global) -> Result<(), AllocError>
        requires { length self.old.statements + 1 < 4294967296 }
        ensures { OnOk result (IsClosed self.old self.new) }
    {
        let piece = mem::replace(&mut self.piece, Growing::new(alloc));
        let text = piece.into_slice(self.arena)?;
        if is_blank(text) {
            return Ok(());
        }
        if text.len() > LONGEST_STATEMENT {
            self.note(self.piece_card, CardRule::StatementTooLong);
        }
        let number = self.statements.as_slice().len() as u32 + 1;
        self.statements.push(StatementView {
            number,
            card: self.piece_card,
            text,
        })
    }

    // Ends the piece behind these bytes of a card. Says whether it is END.
    fn end_piece(&mut self, alloc: Global, card: u32, text: &'a [u8]) -> Result<bool, AllocError>
        requires { length self.old.statements + 1 < 4294967296 }
        ensures read { (p : Parts) (e : Option CardFault) → Holds self.old p e
            → IsPieceEnd result self.new p.whole (p.last ++ cards.placed card text.now) e }
        ensures begun { OnOk result (self.new.begun ≡ self.old.begun) }
        ensures count { OnOk result (length self.new.statements ≤ length self.old.statements + 1) }
    {
        self.extend(card, text)?;
        let is_end = is_end_statement(self.piece.as_slice());
        self.close_piece(alloc)?;
        self.quote = None;
        Ok(is_end)
    }

    // Ends a card with these bytes, behind which this literal is open or none. Says whether the last piece is END.
    fn end_card(
        &mut self,
        alloc: Global,
        card: u32,
        text: &'a [u8],
        quote: Option<u8>,
    ) -> Result<bool, AllocError>
        requires { length self.old.statements + 1 < 4294967296 }
        ensures read { (p : Parts) (e : Option CardFault) → Holds self.old p e
            → IsRead result self.new
            (parts.parts p.whole (p.last ++ cards.placed card text.now) quote) e }
        ensures begun { OnOk result (self.new.begun ≡ self.old.begun) }
        ensures count { OnOk result (length self.new.statements ≤ length self.old.statements + 1) }
    {
        self.extend(card, text)?;
        self.quote = quote;
        let is_end = is_end_statement(self.piece.as_slice());
        if is_end {
            self.close_piece(alloc)?;
        }
        Ok(is_end)
    }

    // Appends a card's columns to the last text. Says whether a piece is END then.
    fn append(&mut self, alloc: Global, card: u32, text: &'a [u8]) -> Result<bool, AllocError>
        requires { length self.old.statements + length text.now + 1 < 4294967296 }
        ensures read { (p : Parts) (e : Option CardFault) → Holds self.old p e
            → IsRead result self.new (appended p (cards.placed card text.now)) e }
        ensures begun { OnOk result (self.new.begun ≡ self.old.begun) }
        ensures count { OnOk result
            (length self.new.statements ≤ length self.old.statements + length text.now + 1) }
    {
        let mut rest = text;
        loop {
            let end = match piece_end(self.quote, rest) {
                Stop::Semicolon(end) => end,
                Stop::End(quote) => return self.end_card(alloc, card, rest, quote),
            };
            if self.end_piece(alloc, card, &rest[..end])? {
                return Ok(true);
            }
            rest = &rest[end + 1..];
        }
    }

    // Begins a text with these columns. Says whether a piece is END then.
    fn begin_text(&mut self, alloc: Global, card: u32, text: &'a [u8]) -> Result<bool, AllocError>
        requires { length self.old.statements + length text.now + 2 < 4294967296 }
        ensures read { (o : Option Parts) (e : Option CardFault) → Waits self.old o e
            → IsRead result self.new (appended (parts.next_text o) (cards.placed card text.now)) e }
        ensures begun { OnOk result (self.new.begun ≡ true) }
        ensures count { OnOk result
            (length self.new.statements ≤ length self.old.statements + length text.now + 2) }
    {
        self.close_piece(alloc)?;
        self.begun = true;
        self.quote = None;
        self.append(alloc, card, text)
    }

    // Tells C1 of a card.
    fn check_bytes(&mut self, card: u32, line: &[u8])
        ensures { self.new ≡ record self.old {
          fault = merge self.old.fault
              (bad_byte card line.now);
        } }
    {
        if !is_plain_line(line) {
            self.note(card, CardRule::BadByte);
        }
    }

    // Reads a card of this kind. Says whether a piece is END then.
    fn read_kind(&mut self, alloc: Global, card: u32, kind: Kind<'a>) -> Result<bool, AllocError>
        requires { length self.old.statements + text_length (kind_of kind) + 2 < 4294967296 }
        ensures read { (o : Option Parts) (e : Option CardFault) → Waits self.old o e
            → IsCardRead result self.new (step o (kind_of kind.entry) card)
            (merge e (kind_fault (is_some o) (kind_of kind.entry) card)) }
        ensures count { OnOk result
            (length self.new.statements
            ≤ length self.old.statements + text_length (kind_of kind.entry) + 2) }
    {
        match kind {
            Kind::Comment | Kind::Control => Ok(false),
            Kind::UnknownControl => {
                self.note(card, CardRule::UnknownControl);
                Ok(false)
            }
            Kind::Continuation(text) if self.begun => self.append(alloc, card, text),
            Kind::Continuation(_) => {
                self.note(card, CardRule::NothingToContinue);
                Ok(false)
            }
            Kind::Start(text) => self.begin_text(alloc, card, text),
        }
    }

    /// Reads the next card. Says whether a piece is END then.
    pub(crate) fn read_card(
        &mut self,
        alloc: Global,
        card: u32,
        line: &'a [u8],
    ) -> Result<bool, AllocError>
        requires { length self.old.statements + length line.now + 2 < 4294967296 }
        ensures read { (o : Option Parts) (e : Option CardFault) → Waits self.old o e
            → IsCardRead result self.new (step o (cards.kind_of_columns (take 72 line.now)) card)
            (merge e (card_fault (is_some o)
            (cards.kind_of_columns (take 72 line.now)) card line.now)) }
        ensures count { OnOk result
            (length self.new.statements ≤ length self.old.statements + length line.now + 2) }
    {
        self.check_bytes(card, line);
        self.read_kind(alloc, card, card_kind(columns_of(line)))
    }

    /// The statements, or the least fault, once END is read.
    pub(crate) fn finish(self) -> Result<DeckView<'a>, CardFault>
        ensures statements { IfOk result (λ d.
            answer self.entry.statements self.entry.fault ≡ Ok d.statements) }
        ensures fault { IfErr result (λ f. answer self.entry.statements self.entry.fault ≡ Err f) }
    {
        let Reader {
            arena: _,
            statements,
            piece: _,
            piece_card: _,
            quote: _,
            begun: _,
            fault,
        } = self;
        match fault {
            Some(fault) => Err(fault),
            None => Ok(DeckView { statements }),
        }
    }

    /// The least fault of a deck without END, whose last card is the one before this.
    pub(crate) fn without_end(mut self, alloc: Global, card: u32) -> Result<CardFault, AllocError>
        requires { length self.statements + 1 < 4294967296 }
        ensures { IfOk result (λ f.
            (o : Option Parts) (e : Option CardFault) → Waits self.entry o e
            → Some f ≡ merge (merge e
            (cards.least (cards.long_statements (cards.kept (pieces_now o)))))
            (Some (cards.fault card rule.NoEnd))) }
    {
        self.close_piece(alloc)?;
        let fault = CardFault {
            card,
            rule: CardRule::NoEnd,
        };
        Ok(lesser(self.fault, fault))
    }
}
