//! The labels that statements give.

ghost use Rattle.std.specs.Prelude.{◌≡◌, ◌++◌, [], ◌∷◌, List, ℕ, map, IfOk, OnOk, option_map, option_to_list};
ghost use Rattle.model.specs.Deck.Faults as faults;
ghost use Rattle.model.specs.Deck.Trees.{Bytes};
ghost use Rattle.parser.specs.Labels.{AreSame, with_label};

use indexmap::IndexSet;
use std::alloc::{AllocError, Global};
use std::marker::Model;

/// A set of labels.
pub(crate) struct Labels<'a> {
    set: IndexSet<&'a [u8]>,
}

impl<'a> Drop for Labels<'a> {
    fn drop(self) {
        let Labels { set: _ } = self;
    }
}

impl<'a> Model for Labels<'a> {
    ghost Value = { List (List ℕ) };

    ghost view = { λ s. map (λ k. k.now) s.set.keys };
}

fn is_return(label: &[u8]) -> bool
    ensures { result ≡ faults.is_one_of label.now faults.returns }
{
    label == b"RETURN".as_slice()
        || label == b"FRETURN".as_slice()
        || label == b"NRETURN".as_slice()
}

impl<'a> Labels<'a> {
    /// No labels.
    pub(crate) fn new(alloc: Global) -> Labels<'a>
        ensures { result ≡ [] }
    {
        Labels {
            set: IndexSet::new(alloc),
        }
    }

    // Puts a label, unless it is there. Whether it was.
    fn insert(&mut self, label: &'a [u8]) -> Result<bool, AllocError>
        ensures put { OnOk result (self.new ≡ with_label self.old label.now) }
        ensures was { IfOk result (λ there. there ≡ faults.is_one_of label.now self.old) }
    {
        let is_new = self.set.insert(label)?;
        Ok(!is_new)
    }

    /// Puts the label that a statement gives, if it gives one. Whether it is one that returns have, or was there.
    pub(crate) fn insert_given(&mut self, label: Option<&'a [u8]>) -> Result<bool, AllocError>
        ensures put { OnOk result ((ls : List Bytes) → AreSame self.old ls
            → AreSame self.new (ls ++ option_to_list (option_map (λ l. l.now) label.entry))) }
        ensures taken { IfOk result (λ taken. taken
            ≡ faults.is_taken self.old (option_to_list (option_map (λ l. l.now) label.entry))) }
    {
        match label {
            Some(label) => {
                let there = self.insert(label)?;
                Ok(is_return(label) || there)
            }
            None => Ok(false),
        }
    }

    /// Whether a label is there.
    pub(crate) fn contains(&self, label: &[u8]) -> bool
        ensures { result ≡ faults.is_one_of label.now self.now }
    {
        self.set.contains(label)
    }
}
