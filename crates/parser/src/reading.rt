//! Statements as they are read, one by one.

ghost use Rattle.std.specs.Prelude.{◌≡◌, ◌++◌, [], ◌∷◌, List, IfErr, IfOk, OnOk, Ok, option_map, option_to_list};
ghost use Rattle.model.specs.Deck.Faults as spec;
ghost use Rattle.model.specs.Deck.Trees.{Bytes};
ghost use Rattle.model.specs.Deck.TreeViews.{stmt_of};
ghost use Rattle.model.specs.declared.cards.Statement.{Statement};
ghost use Rattle.parser.specs.Reads.{HasRead, IsGiven, IsRead, entry_asked, entry_rule, missing};
ghost use Rattle.parser.specs.Reads.{noted_fault, noted_faults, result_of};
ghost use Rattle.parser.specs.Refusals.{IsRefusal};

use crate::labels::Labels;
use crate::statements::rule_broken;
use card_reader::StatementView;
use lexer::{first_name, lex};
use model::{Cause, DeckFault, Seq, Stmt, StmtFault, Token};
use std::alloc::{AllocError, Global};
use std::rc::Rc;
use stmt_parser::parse_statement;
use tree_drops::{FreeParts, LastTree, StmtTree};

/// What is noted of a statement.
pub(crate) enum Noted {
    /// It is faulty.
    Faulty(StmtFault),
    /// The statement of this number is faulty if no statement gives this label, where it says that execution begins.
    Entry(u32, Vec<u8>),
}

impl Drop for Noted {
    fn drop(self) {
        match self {
            Noted::Faulty(_) => {}
            Noted::Entry(_, _) => {}
        }
    }
}

/// A reader of statements: it gives the tree of each, and in the end what is wrong with them.
pub struct Reader<'a> {
    /// The labels that statements with a tree gave.
    labels: Labels<'a>,
    noted: Vec<Noted>,
    /// Room for the tokens of a statement.
    tokens: Vec<Token<'a>>,
    /// Parts of trees that are gone.
    free: FreeParts,
    /// Where the statement of the last tree waits.
    last: Option<Rc<LastTree>>,
}

impl<'a> Drop for Reader<'a> {
    fn drop(self) {
        let Reader {
            labels: _,
            noted: _,
            tokens: _,
            free: _,
            last: _,
        } = self;
    }
}

// Where the statement of the next tree is to wait.
fn last_tree(alloc: Global, last: &mut Option<Rc<LastTree>>) -> Result<Rc<LastTree>, AllocError> {
    if let Some(made) = last {
        return made.clone();
    }
    let made = Rc::new(alloc, LastTree::new(alloc))?;
    *last = Some(made.clone()?);
    Ok(made)
}

// Keeps the parts of the statement that waits, if one does.
fn use_again(free: &mut FreeParts, last: &LastTree) {
    if let Some(gone) = last.take() {
        let mut gone = gone;
        free.keep_statement(&mut gone);
    }
}

// The tree of a text, or the cause for which it has none. Its tokens are put in place of others.
fn tree<'a>(
    free: &mut FreeParts,
    tokens: &mut Vec<Token<'a>>,
    text: &'a [u8],
) -> Result<Box<Stmt>, Cause>
    ensures { IsRead (spec.read text.now) result }
{
    lex(tokens, text)?;
    parse_statement(free, tokens)
}

// The tree of a text or the cause for which it has none, with want of memory as a result of its own.
fn tree_or_cause<'a>(
    free: &mut FreeParts,
    tokens: &mut Vec<Token<'a>>,
    text: &'a [u8],
) -> Result<Result<Box<Stmt>, Cause>, AllocError>
    ensures { IfOk result (λ found. result_of found ≡ spec.read text.now) }
{
    match tree(free, tokens, text) {
        Err(Cause::Memory) => Err(AllocError),
        found => Ok(found),
    }
}

// The label where a statement says that execution begins.
fn entry_asked(tree: &Stmt) -> Option<&[u8]>
    ensures { option_map (λ l. l.now) result ≡ entry_asked (stmt_of tree.now) }
{
    match tree {
        Stmt::End { entry } => entry.as_deref(),
        Stmt::Plain { .. } => None,
    }
}

// Notes that the statement of a number asks for a label.
fn note_label(
    noted: &mut Vec<Noted>,
    alloc: Global,
    number: u32,
    label: &[u8],
) -> Result<(), AllocError>
    ensures { OnOk result ((all : List Bytes) → noted_faults all noted.new.items
        ≡ noted_faults all noted.old.items ++ spec.fault_of number (missing all label.now)) }
{
    let label = Vec::from_slice(alloc, label)?;
    noted.push(Noted::Entry(number, label))?;
    Ok(())
}

// Notes the label where a statement says that execution begins, if it does.
fn note_entry(
    noted: &mut Vec<Noted>,
    alloc: Global,
    number: u32,
    tree: &Stmt,
) -> Result<(), AllocError>
    ensures { OnOk result ((all : List Bytes) → noted_faults all noted.new.items
        ≡ noted_faults all noted.old.items ++ spec.fault_of number (entry_rule all (stmt_of tree.now))) }
{
    match entry_asked(tree) {
        Some(label) => note_label(noted, alloc, number, label),
        None => Ok(()),
    }
}

// What is wrong with a statement that asks for a label, where all statements give these.
fn lacking(number: u32, label: &[u8], all: &Labels<'_>) -> Option<StmtFault>
    ensures { option_to_list result ≡ spec.fault_of number (missing all.now label.now) }
{
    if all.contains(label) {
        return None;
    }
    Some(StmtFault {
        number,
        cause: Cause::EntryMissing,
    })
}

// What is wrong with a statement, where all statements give these labels.
fn told(noted: &Noted, all: &Labels<'_>) -> Option<StmtFault>
    ensures { option_to_list result ≡ noted_fault all.now noted.now }
{
    match noted {
        Noted::Faulty(fault) => Some(*fault),
        Noted::Entry(number, label) => lacking(*number, label, all),
    }
}

fn tell(faults: &mut Seq<StmtFault>, fault: Option<StmtFault>) -> Result<(), AllocError>
    ensures { OnOk result (faults.new ≡ faults.old ++ option_to_list fault) }
{
    match fault {
        Some(fault) => faults.push(fault),
        None => Ok(()),
    }
}

// What is wrong with all that is noted, in order.
fn faults(alloc: Global, noted: &[Noted], all: &Labels<'_>) -> Result<Seq<StmtFault>, AllocError>
    ensures { IfOk result (λ fs. fs ≡ noted_faults all.now noted.now) }
{
    let mut faults = Seq::new(alloc);
    for one in noted {
        tell(&mut faults, told(one, all))?;
    }
    Ok(faults)
}

impl<'a> Reader<'a> {
    /// Nothing is read.
    pub fn new(alloc: Global) -> Reader<'a>
        ensures { HasRead [] result }
    {
        Reader {
            labels: Labels::new(alloc),
            noted: Vec::new(alloc),
            tokens: Vec::new(alloc),
            free: FreeParts::new(alloc),
            last: None,
        }
    }

    // Notes what a statement with this text and this tree breaks, and the label that it gives. The tree, unless the
    // statement is faulty whatever labels later ones give.
    fn judge(
        &mut self,
        alloc: Global,
        statement: &StatementView<'a>,
        tree: StmtTree,
    ) -> Result<Option<StmtTree>, AllocError>
        requires { spec.read statement.now.text ≡ Ok (stmt_of tree.statement.value) }
        ensures read { OnOk result ((ss : List Statement) → HasRead ss self.old
            → HasRead (ss ++ statement.now ∷ []) self.new) }
        ensures given { IfOk result (IsGiven statement.now self.old) }
    {
        let is_taken = self.labels.insert_given(first_name(statement.text()))?;
        let cause = rule_broken(&tree.statement, is_taken);
        let number = statement.number();
        match cause {
            Some(cause) => {
                self.noted.push(Noted::Faulty(StmtFault { number, cause }))?;
                Ok(None)
            }
            None => {
                note_entry(&mut self.noted, alloc, number, &tree.statement)?;
                Ok(Some(tree))
            }
        }
    }

    /// Reads the next statement: its tree, unless the statement is faulty whatever labels later ones give.
    pub fn read(
        &mut self,
        alloc: Global,
        statement: &StatementView<'a>,
    ) -> Result<Option<StmtTree>, AllocError>
        ensures read { OnOk result ((ss : List Statement) → HasRead ss self.old
            → HasRead (ss ++ statement.now ∷ []) self.new) }
        ensures given { IfOk result (IsGiven statement.now self.old) }
    {
        let last = last_tree(alloc, &mut self.last)?;
        use_again(&mut self.free, &last);
        let found = tree_or_cause(&mut self.free, &mut self.tokens, statement.text())?;
        match found {
            Ok(tree) => self.judge(alloc, statement, StmtTree::new(last, tree)),
            Err(cause) => {
                let number = statement.number();
                self.noted.push(Noted::Faulty(StmtFault { number, cause }))?;
                Ok(None)
            }
        }
    }

    /// Whether what was read has no faulty statement, where these are all statements; else the faulty ones in order.
    pub fn finish(self, alloc: Global) -> Result<(), DeckFault>
        ensures faultless { OnOk result ((ss : List Statement) → HasRead ss self.entry → spec.faults ss ≡ []) }
        ensures refused { IfErr result (λ f.
            (ss : List Statement) → HasRead ss self.entry → IsRefusal (spec.faults ss) f) }
    {
        let Ok(found) = faults(alloc, self.noted.as_slice(), &self.labels) else {
            return Err(DeckFault::Memory);
        };
        if found.as_slice().is_empty() {
            Ok(())
        } else {
            Err(DeckFault::Faulty(found))
        }
    }
}
