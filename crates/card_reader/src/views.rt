//! Statements whose texts are slices of the deck.

ghost use Rattle.std.specs.Prelude.{◌≡◌, ◌++◌, [], OnOk, OnErr, IfOk};

use bumpalo::Bump;
use model::{Bytes, Deck, Seq, Statement};
use std::alloc::{AllocError, Global};
use std::marker::Model;

/// A statement as cards give it. Its text is a slice of the deck where it stands on one card. Contracts see the
/// statement.
pub struct StatementView<'a> {
    pub(crate) number: u32,
    pub(crate) card: u32,
    pub(crate) text: &'a [u8],
}

impl<'a> Drop for StatementView<'a> {
    fn drop(self) {
        let StatementView {
            number: _,
            card: _,
            text: _,
        } = self;
    }
}

impl<'a> Model for StatementView<'a> {
    ghost use Rattle.model.specs.declared.cards.Statement.{Statement};

    ghost Value = { Statement };

    ghost view = { λ s. record { number = s.number; card = s.card; text = s.text.now } };
}

impl<'a> StatementView<'a> {
    /// Its number among the deck's statements, from 1.
    pub fn number(&self) -> u32
        ensures { result ≡ self.now.number }
    {
        self.number
    }

    /// The number of the card that holds its first byte, from 1.
    pub fn card(&self) -> u32
        ensures { result ≡ self.now.card }
    {
        self.card
    }

    /// Its bytes, those of its continuation cards included.
    pub fn text(&self) -> &'a [u8]
        ensures { result.now ≡ self.now.text }
    {
        self.text
    }
}

/// The statements of a deck in order, END's last.
#[derive(Drop)]
pub struct DeckView<'a> {
    /// Numbered from 1 with no gap.
    pub statements: Seq<StatementView<'a>>,
}

impl<'a> DeckView<'a> {
    /// The deck with copies of the texts.
    pub(crate) fn to_deck(&self, alloc: Global) -> Result<Deck, AllocError>
        ensures { IfOk result (λ d. d.statements ≡ self.now.statements) }
    {
        let mut statements = Seq::new(alloc);
        for statement in self.statements.as_slice() {
            let text = Vec::from_slice(alloc, statement.text)?;
            statements.push(Statement {
                number: statement.number,
                card: statement.card,
                text: Bytes::from_vec(text),
            })?;
        }
        Ok(Deck { statements })
    }
}

/// A text that grows: a slice as long as it has one part alone, and else a copy of its parts.
pub(crate) struct Growing<'a> {
    only: &'a [u8],
    copied: Vec<u8>,
}

impl<'a> Drop for Growing<'a> {
    fn drop(self) {
        let Growing { only: _, copied: _ } = self;
    }
}

impl<'a> Model for Growing<'a> {
    ghost use Rattle.std.specs.Prelude.{◌≡◌, ◌⊎◌, ◌++◌, ℕ, List, []};

    ghost Value = { List ℕ };

    ghost view = { λ g. g.only.now ++ g.copied.items };

    ghost invariant = { λ g. (g.only.now ≡ []) ⊎ (g.copied.items ≡ []) };
}

impl<'a> Growing<'a> {
    pub(crate) fn new(alloc: Global) -> Growing<'a>
        ensures { result ≡ [] }
    {
        Growing {
            only: &[],
            copied: Vec::new(alloc),
        }
    }

    pub(crate) fn as_slice(&self) -> &[u8]
        ensures { result.now ≡ self.now }
    {
        if self.copied.is_empty() {
            self.only
        } else {
            self.copied.as_slice()
        }
    }

    /// Appends a part; after a refusal the text is as before.
    pub(crate) fn extend(&mut self, part: &'a [u8]) -> Result<(), AllocError>
        ensures ok { OnOk result (self.new ≡ self.old ++ part.now) }
        ensures err { OnErr result (self.new ≡ self.old) }
    {
        if self.copied.is_empty() && self.only.is_empty() {
            self.only = part;
            return Ok(());
        }
        if self.copied.is_empty() {
            self.copied.extend_from_slice(self.only)?;
            self.only = &[];
        }
        self.copied.extend_from_slice(part)
    }

    /// The text as a slice. A copy is kept in the arena.
    pub(crate) fn into_slice(self, arena: &'a Bump) -> Result<&'a [u8], AllocError>
        ensures { IfOk result (λ text. text.now ≡ self.entry) }
    {
        let Growing { only, copied } = self;
        if copied.is_empty() {
            return Ok(only);
        }
        Ok(arena.try_alloc_slice_copy(&copied)?)
    }
}
