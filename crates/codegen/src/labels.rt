//! The table of labels.

ghost use Rattle.std.specs.Prelude.{◌≡◌, ◌≤◌, ◌<◌, ◌^◌, List, [], ℕ, map, length, option_map, OnOk, OnErr, IfOk, IfSome, Some};
ghost use Rattle.model.specs.Deck.TreeViews.{stmt_of};
ghost use Rattle.codegen.specs.Labels.{but_end, entry_by, entry_of, entry_with, name_of, number_in};
ghost use Rattle.codegen.specs.Labels.{number_among, with_label, with_name};

use indexmap::IndexMap;
use model::Stmt;
use std::alloc::{AllocError, Global};
use std::cell::Cell;
use std::marker::Model;

/// Labels with the numbers of their statements.
pub struct Labels<'a> {
    numbers: IndexMap<&'a [u8], u32>,
    /// How many labels were passed on the way through the statements. The last of them and the next one are looked at
    /// before all others.
    passed: Cell<usize>,
}

impl<'a> Drop for Labels<'a> {
    fn drop(self) {
        let Labels {
            numbers: _,
            passed: _,
        } = self;
    }
}

impl<'a> Model for Labels<'a> {
    ghost Value = { List (List ℕ × ℕ) };

    ghost view = { λ s. map entry_of s.numbers.entries };
}

impl<'a> Labels<'a> {
    /// No labels.
    pub fn new(alloc: Global) -> Labels<'a>
        ensures { result ≡ [] }
    {
        Labels {
            numbers: IndexMap::new(alloc),
            passed: Cell::new(0),
        }
    }

    // No labels, and room for so many.
    fn with_room(alloc: Global, count: usize) -> Result<Labels<'a>, AllocError>
        ensures { IfOk result (λ labels. labels ≡ []) }
    {
        Ok(Labels {
            numbers: IndexMap::with_capacity(alloc, count)?,
            passed: Cell::new(0),
        })
    }

    /// How many labels there are.
    pub(crate) fn count(&self) -> usize {
        self.numbers.len()
    }

    // The number of a label, if it is the one at a place of the table.
    #[inline(always)]
    fn number_at(&self, place: usize, label: &[u8]) -> Option<u32>
        ensures { IfSome result (λ n. number_in self.now label.now ≡ Some n) }
    {
        let (key, number) = self.numbers.get_index(place)?;
        if *key == label { Some(*number) } else { None }
    }

    // The number of a label, if it is the last one that was passed, or the next one.
    #[inline(always)]
    fn number_near(&self, label: &[u8]) -> Option<u32>
        ensures { IfSome result (λ n. number_in self.now label.now ≡ Some n) }
    {
        let passed = self.passed.get();
        match self.number_at(passed.saturating_sub(1), label) {
            Some(number) => Some(number),
            None => self.number_at(passed, label),
        }
    }

    /// The number of a label's statement.
    pub fn find(&self, label: &[u8]) -> Option<u32>
        ensures { result ≡ number_in self.now label.now }
    {
        match self.number_near(label) {
            Some(number) => Some(number),
            None => self.numbers.get(label).copied(),
        }
    }

    /// Notes that a statement is passed.
    pub(crate) fn pass(&self, statement: &Stmt) {
        if let Stmt::Plain { label: Some(_), .. } = statement {
            self.passed.set(self.passed.get().saturating_add(1));
        }
    }

    /// Notes the number of a label's statement, unless the label has one.
    pub fn note(&mut self, label: &'a [u8], number: u32) -> Result<(), AllocError>
        ensures noted { OnOk result (self.new ≡ with_label label.now number self.old) }
        ensures refused { OnErr result (self.new ≡ self.old) }
    {
        let earlier = self.numbers.insert(label, number)?;
        if let Some(first) = earlier {
            self.numbers.insert(label, first)?;
        }
        Ok(())
    }

    // The same of a label that a statement may give.
    fn note_given(&mut self, label: Option<&'a [u8]>, number: u32) -> Result<(), AllocError>
        ensures { OnOk result (self.new ≡ with_name (name_of label.entry) number self.old) }
    {
        match label {
            Some(label) => self.note(label, number),
            None => Ok(()),
        }
    }
}

const END: [u8; 3] = *b"END";

/// The label that a statement gives, unless it is END.
pub(crate) fn own_label(label: Option<&[u8]>) -> Option<&[u8]>
    ensures { name_of result ≡ but_end (name_of label.entry) }
{
    match label {
        Some(name) => {
            if name == END.as_slice() {
                None
            } else {
                Some(name)
            }
        }
        None => None,
    }
}

// The number of the first statement to run, where END names this label or none.
fn entry_number(labels: &Labels<'_>, label: Option<&[u8]>) -> u32
    ensures { result ≡ entry_by (number_in labels.now) (name_of label.entry) }
{
    match label {
        Some(label) => labels.find(label).unwrap_or(1),
        None => 1,
    }
}

/// The number of the first statement to run, as far as it is known, with one statement more.
pub(crate) fn entry_after(labels: &Labels<'_>, entry: Option<u32>, s: &Stmt) -> Option<u32>
    ensures { result ≡ entry_with (number_in labels.now) entry (stmt_of s.now) }
{
    match entry {
        Some(number) => Some(number),
        None => match s {
            Stmt::Plain { .. } => None,
            Stmt::End { entry } => Some(entry_number(labels, entry.as_deref())),
        },
    }
}

// How many statements give a label.
fn count_given(names: &[Option<&[u8]>]) -> usize {
    let mut count: usize = 0;
    for name in names {
        count = count.saturating_add(usize::from(name.is_some()));
    }
    count
}

/// The labels of a program's statements, by the label that each gives.
pub fn labels_of<'a>(alloc: Global, names: &[Option<&'a [u8]>]) -> Result<Labels<'a>, AllocError>
    requires { length names.now < 2 ^ 31 }
    ensures { IfOk result (λ labels.
        (l : List ℕ) → number_in labels l ≡ number_among 1 (map name_of names.now) l) }
{
    let mut labels = Labels::with_room(alloc, count_given(names))?;
    let mut number = 1;
    for name in names {
        labels.note_given(*name, number)?;
        number += 1;
    }
    Ok(labels)
}
