//! The sets of bytes of pattern code.

ghost use Rattle.std.specs.Prelude.{◌≡◌, ◌≤◌, ℕ, List, [], ◌∷◌, length, not, IfOk};
ghost use Rattle.std.specs.List.{prefix_len};
ghost use Rattle.model.specs.Pattern.BasicEnds.{is_in_set};
ghost use Rattle.model.specs.Language.Strings.{flags_of};

use memchr::{memchr, memchr2, memchr3};
use std::alloc::{AllocError, Global};
use std::marker::Model;
use std::rc::Rc;
use strings::{ByteSet, Text, break_end, span_end};

/// A set of bytes, which contracts see as its text. Its clones share its table.
pub struct Set {
    text: Text,
    table: Option<Rc<ByteSet>>,
}

impl Drop for Set {
    #[inline(always)]
    fn drop(self) {
        let Set { text: _, table } = self;
        match table {
            Some(table) => let_go(table),
            None => {}
        }
    }
}

// The end of a share of a table, apart from sets that have none.
#[inline(never)]
fn let_go(_table: Rc<ByteSet>) {}

impl Model for Set {
    ghost use Rattle.std.specs.Prelude.{List, ℕ, ◌≡◌, IfSome};
    ghost use Rattle.model.specs.Language.Strings.{flags_of};

    ghost Value = { List ℕ };

    ghost view = { λ s. s.text };

    ghost invariant = { λ s. IfSome s.table (λ table. table.value ≡ flags_of s.text) };
}

impl Set {
    /// The set of a text's bytes, with a table.
    pub fn of(alloc: Global, text: Text) -> Result<Set, AllocError>
        ensures { IfOk result (λ set. set ≡ text) }
    {
        let table = Rc::new(alloc, ByteSet::of(text.as_slice()))?;
        Ok(Set {
            text,
            table: Some(table),
        })
    }

    /// The set of a text's bytes for one use, without a table. Takes no memory.
    pub fn once(text: Text) -> Set
        ensures { result ≡ text }
    {
        Set { text, table: None }
    }

    /// Whether a byte is in the set.
    #[inline(always)]
    pub fn has(&self, byte: u8) -> bool
        ensures { result ≡ is_in_set self.now byte }
    {
        match &self.table {
            Some(table) => table.as_ref().has(byte),
            None => holds(&self.text, byte),
        }
    }

    /// How many bytes of the set come first.
    pub fn span_len(&self, bytes: &[u8]) -> usize
        ensures value { result ≡ prefix_len (is_in_set self.now) bytes.now }
        ensures within { result ≤ length bytes.now }
    {
        match &self.table {
            Some(table) => span_by(bytes, table.as_ref()),
            None => span_by(bytes, &ByteSet::of(self.text.as_slice())),
        }
    }

    /// How many bytes come before the first of the set.
    pub fn break_len(&self, bytes: &[u8]) -> usize
        ensures value { result ≡ prefix_len (λ b. not (is_in_set self.now b)) bytes.now }
        ensures within { result ≤ length bytes.now }
    {
        match self.text.as_slice() {
            [byte] => break_at(bytes, *byte),
            [first, second] => break_at_two(bytes, *first, *second),
            [first, second, third] => break_at_three(bytes, *first, *second, *third),
            many => match &self.table {
                Some(table) => break_by(bytes, table.as_ref()),
                None => break_by(bytes, &ByteSet::of(many)),
            },
        }
    }
}

// Whether a byte is one of a text, apart from sets with a table.
#[inline(never)]
fn holds(text: &Text, byte: u8) -> bool
    ensures { result ≡ is_in_set text.now byte }
{
    text.as_slice().contains(&byte)
}

// How many bytes of the table come first.
fn span_by(bytes: &[u8], table: &ByteSet) -> usize
    ensures value { (w : List ℕ) → table.now ≡ flags_of w
        → result ≡ prefix_len (is_in_set w) bytes.now }
    ensures within { result ≤ length bytes.now }
{
    span_end(bytes, 0, table)
}

// How many bytes come before the first of the table.
fn break_by(bytes: &[u8], table: &ByteSet) -> usize
    ensures value { (w : List ℕ) → table.now ≡ flags_of w
        → result ≡ prefix_len (λ b. not (is_in_set w b)) bytes.now }
    ensures within { result ≤ length bytes.now }
{
    match break_end(bytes, 0, table) {
        Some(end) => end,
        None => bytes.len(),
    }
}

/// How many bytes come before the first that is this one.
pub fn break_at(bytes: &[u8], byte: u8) -> usize
    ensures value { result ≡ prefix_len (λ b. not (is_in_set (byte ∷ []) b)) bytes.now }
    ensures within { result ≤ length bytes.now }
{
    match memchr(byte, bytes) {
        Some(end) => end,
        None => bytes.len(),
    }
}

// How many bytes come before the first that is one of two.
fn break_at_two(bytes: &[u8], first: u8, second: u8) -> usize
    ensures value { result ≡ prefix_len (λ b. not (is_in_set (first ∷ second ∷ []) b)) bytes.now }
    ensures within { result ≤ length bytes.now }
{
    match memchr2(first, second, bytes) {
        Some(end) => end,
        None => bytes.len(),
    }
}

// How many bytes come before the first that is one of three.
fn break_at_three(bytes: &[u8], first: u8, second: u8, third: u8) -> usize
    ensures value { result ≡ prefix_len (λ b. not (is_in_set (first ∷ second ∷ third ∷ []) b)) bytes.now }
    ensures within { result ≤ length bytes.now }
{
    match memchr3(first, second, third, bytes) {
        Some(end) => end,
        None => bytes.len(),
    }
}

impl Clone for Set {
    ghost is_clone = { λ set copy. copy ≡ set };

    fn clone(&self) -> Result<Set, AllocError> {
        let table = match &self.table {
            Some(table) => Some(table.clone()?),
            None => None,
        };
        Ok(Set {
            text: self.text.clone()?,
            table,
        })
    }
}
