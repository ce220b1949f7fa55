//! Where the attempt under way stands, and the choices that are gone back to.

ghost use Rattle.std.specs.Prelude.{◌≡◌, ◌∷◌, List, [], true, false, IfOk, IfSome, OnOk, length, reverse, take, Some, None};
ghost use Rattle.model.specs.Pattern.Steps as s;
ghost use Rattle.backtrack.specs.Standing.{Standing, bare, noted, entered, assigning, inside, opened, unopened, fenced, with_choice, no_backs, IsUnfenced, IsAtArb, IsHere, IsKeptAt, IsOpen, IsRetried, from_kept};
ghost use Rattle.backtrack.specs.Logs.{assigned, pending_of, note_of, chain, last_code};

use crate::assignment::Assignment;
use crate::way_back::{Choice, Kind, WayBack, parts};
use pattern_compiler::PatCode;
use std::alloc::{AllocError, Global};
use std::marker::Model;
use std::mem;

/// So much room is more than a list keeps for the next match.
const MANY: usize = 1 << 16;

/// A cursor that OPEN noted, how many choices FOPEN noted, or where the code that EVAL left goes on.
#[derive(Drop)]
pub enum Note {
    Opened(usize),
    Fenced(usize),
    Left(PatCode, usize),
}

/// A note, and the list below it: 0, or one more than the place of its newest entry.
#[derive(Drop)]
pub struct Entry {
    pub note: Note,
    pub below: usize,
}

/// The attempt's code, its notes and its pending assignments, and the choices. Notes are only added: a list of notes is
/// the place of its newest. The code of a choice is the last of the codes that its cut leaves. The newest choice is the
/// last.
#[derive(Drop)]
pub struct Trail {
    code: PatCode,
    /// The last of the codes is the attempt's.
    stored: bool,
    codes: Vec<PatCode>,
    head: usize,
    log: Vec<Entry>,
    pending: Vec<Assignment>,
    choices: Vec<Choice>,
}

impl Model for Trail {
    ghost use Rattle.backtrack.specs.Standing.{Standing};

    ghost Value = { Standing };

    ghost use Rattle.backtrack.specs.Logs.{standing, IsKept};

    ghost view = { standing };

    ghost invariant = { IsKept };
}

impl Trail {
    /// Nothing. Takes no memory.
    pub fn new(alloc: Global) -> Trail
        ensures { result ≡ bare [] }
    {
        Trail {
            code: PatCode::null(),
            stored: false,
            codes: Vec::new(alloc),
            head: 0,
            log: Vec::new(alloc),
            pending: Vec::new(alloc),
            choices: Vec::new(alloc),
        }
    }

    /// The code.
    #[inline(always)]
    pub fn code(&self) -> &PatCode
        ensures { result.now ≡ self.now.code }
    {
        &self.code
    }

    /// Whether there is no choice.
    #[inline(always)]
    pub fn is_last(&self) -> bool
        ensures { result ≡ no_backs self.now.backs }
    {
        self.choices.is_empty()
    }

    /// Whether there is one choice alone.
    #[inline(always)]
    pub fn is_single(&self) -> bool
        ensures { result ≡ true → length self.now.backs ≡ 1 }
    {
        if self.choices.len() == 1 { true } else { false }
    }

    /// Without notes, pending assignments and choices.
    #[inline(always)]
    fn strip(&mut self)
        ensures { self.new ≡ bare self.old.code }
    {
        let is_bare = self.log.is_empty()
            && self.pending.is_empty()
            && self.codes.is_empty()
            && self.choices.is_empty();
        if !is_bare {
            self.empty_lists();
        }
    }

    /// Drops the notes, pending assignments and choices, of which there are some. Apart, so that the other way is
    /// short.
    #[inline(never)]
    fn empty_lists(&mut self)
        ensures { self.new ≡ bare self.old.code }
    {
        self.stored = false;
        self.head = 0;
        self.choices.clear();
        self.codes.truncate(0);
        self.log.truncate(0);
        self.pending.truncate(0);
    }

    /// The first attempt of a start.
    #[inline(always)]
    pub fn begin(&mut self, code: &PatCode) -> Result<(), AllocError>
        ensures { OnOk result (self.new ≡ bare code.now) }
    {
        self.strip();
        self.code = code.clone()?;
        self.stored = false;
        Ok(())
    }

    /// Nothing again. The memory of its lists stays for others, but for that of long ones.
    #[inline(always)]
    pub fn clear(&mut self, alloc: Global)
        ensures { self.new ≡ bare [] }
    {
        let shorter = self.choices.capacity() | self.codes.capacity();
        let longer = self.log.capacity() | self.pending.capacity();
        if shorter | longer > MANY {
            *self = Trail::new(alloc);
        }
        self.strip();
        self.code = PatCode::null();
        self.stored = false;
    }

    /// Adds a note.
    fn add(&mut self, note: Note) -> Result<(), AllocError>
        ensures { OnOk result (self.new ≡ noted (note_of note) self.old) }
    {
        let below = self.head;
        self.log.push(Entry { note, below })?;
        self.head = self.log.len();
        Ok(())
    }

    /// Notes a cursor.
    pub fn open(&mut self, cursor: usize) -> Result<(), AllocError>
        ensures { OnOk result (self.new ≡ noted (s.Opened cursor) self.old) }
    {
        self.add(Note::Opened(cursor))
    }

    /// The newest note is taken off if it is that of OPEN, and its cursor is answered.
    pub fn take_opened(&mut self) -> Option<usize>
        ensures cursor { result ≡ opened self.old.notes }
        ensures taken { self.new ≡ record self.old { notes = unopened self.old.notes } }
    {
        match newest(self.log.as_slice(), self.head) {
            Some((Note::Opened(cursor), below)) => {
                let cursor = *cursor;
                self.head = below;
                Some(cursor)
            }
            _ => None,
        }
    }

    /// Notes how many choices there are. Apart, so that each instruction is short.
    #[inline(never)]
    pub fn open_fence(&mut self) -> Result<(), AllocError>
        ensures { OnOk result (self.new ≡ noted (s.Fenced (length self.old.backs)) self.old) }
    {
        let count = self.choices.len();
        self.add(Note::Fenced(count))
    }

    /// Takes off the newest note and the choices since, if that note is of FOPEN; whether it is.
    #[inline(never)]
    pub fn close_fence(&mut self) -> bool
        ensures closed { result ≡ true → IsUnfenced self.old self.new }
        ensures none { result ≡ false → (fenced self.old.notes ≡ None) × (self.new ≡ self.old) }
    {
        match newest(self.log.as_slice(), self.head) {
            Some((Note::Fenced(count), below)) => {
                self.choices.truncate(*count);
                self.head = below;
                true
            }
            _ => false,
        }
    }

    /// Into a pattern, which goes on at the place.
    pub fn enter(&mut self, code: PatCode, after: usize) -> Result<(), AllocError>
        ensures { OnOk result (self.new ≡ entered code after self.old) }
    {
        let left = mem::replace(&mut self.code, code);
        self.stored = false;
        self.add(Note::Left(left, after))
    }

    /// The code and the place that the newest note leads to, if it is that of an entered pattern.
    #[inline(always)]
    pub fn outer(&self) -> Option<(&PatCode, usize)>
        ensures { IfSome result (λ (code, place).
            (ns : List s.Note) × (self.now.notes ≡ s.Left code.now place ∷ ns)) }
    {
        match newest(self.log.as_slice(), self.head) {
            Some((Note::Left(code, place), _below)) => Some((code, *place)),
            _ => None,
        }
    }

    /// Out of the pattern that was entered last, if the newest note is that of one; the place where it goes on.
    pub fn leave(&mut self) -> Result<Option<usize>, AllocError>
        ensures left { IfOk result (λ o. IfSome o (λ place. self.old ≡ entered self.old.code place self.new)) }
        ensures none { IfOk result (λ o. o ≡ None → (inside self.old.notes ≡ false) × (self.new ≡ self.old)) }
    {
        match newest(self.log.as_slice(), self.head) {
            Some((Note::Left(code, place), below)) => {
                let place = *place;
                self.code = code.clone()?;
                self.stored = false;
                self.head = below;
                Ok(Some(place))
            }
            _ => Ok(None),
        }
    }

    /// A pending assignment more.
    #[inline(always)]
    pub fn assign(&mut self, assignment: Assignment) -> Result<(), AllocError>
        ensures { OnOk result (self.new ≡ assigning (assigned assignment) self.old) }
    {
        self.pending.push(assignment)?;
        Ok(())
    }

    /// The pending assignments.
    pub fn pending(&self) -> &[Assignment]
        ensures { pending_of result.now ≡ self.now.pending }
    {
        self.pending.as_slice()
    }

    /// Keeps a choice. Takes memory only where a log has to grow.
    #[inline(always)]
    pub fn keep(&mut self, kept: WayBack, place: usize, cursor: usize) -> Result<(), AllocError>
        ensures { OnOk result (self.new ≡ with_choice self.old kept place cursor) }
    {
        let (count, room) = (self.choices.len(), self.choices.capacity());
        if !self.stored || count >= room {
            return self.keep_growing(kept, place, cursor);
        }
        let lengths = (self.log.len(), self.pending.len(), self.codes.len());
        let choice = Choice::new(kept, place, cursor, self.head, lengths)?;
        self.choices.push_reserved(choice);
        Ok(())
    }

    /// Keeps a choice, where the code isn't stored yet or the choices have no room. Apart, so that the other way is
    /// short.
    #[cold]
    #[inline(never)]
    fn keep_growing(&mut self, kept: WayBack, place: usize, cursor: usize) -> Result<(), AllocError>
        ensures { OnOk result (self.new ≡ with_choice self.old kept place cursor) }
    {
        if !self.stored {
            let copy = self.code.clone()?;
            self.codes.push(copy)?;
            self.stored = true;
        }
        let lengths = (self.log.len(), self.pending.len(), self.codes.len());
        let choice = Choice::new(kept, place, cursor, self.head, lengths)?;
        self.choices.push(choice)?;
        Ok(())
    }

    /// Whether the newest choice is of the code under way.
    #[inline(always)]
    pub fn is_here(&self) -> bool
        ensures { result ≡ true → IsHere self.now }
    {
        match self.choices.last() {
            Some(choice) => self.stored && self.codes.len() <= choice.codes as usize,
            None => false,
        }
    }

    /// The place and the next end of ARB, where the newest choice goes back to one of the code under way.
    #[inline(always)]
    pub fn arb_here(&self) -> Option<(usize, usize)>
        ensures { IfSome result (λ (place, end). IsAtArb self.now place end) }
    {
        let choice = self.choices.last()?;
        match choice.kept() {
            WayBack::Arb(end) if self.is_here() => Some((choice.place as usize, end)),
            _ => None,
        }
    }

    /// The newest choice goes back to something else, or is taken off.
    #[inline(always)]
    pub fn pass_on(&mut self, kept: Option<WayBack>) -> Result<(), AllocError>
        ensures ok { OnOk result
            (self.new ≡ record self.old { backs = from_kept kept self.old.backs }) }
        ensures code { self.new.code ≡ self.old.code }
    {
        if let Some(mut choice) = self.choices.pop() {
            if let Some(kept) = kept {
                let (kind, target) = parts(kept);
                if target > u32::MAX as usize {
                    return Err(AllocError);
                }
                choice.kind = kind;
                choice.target = target as u32;
                self.choices.push_reserved(choice);
            }
        }
        Ok(())
    }

    /// The code of the newest choice is the one under way.
    #[inline(always)]
    pub fn recover(&mut self) -> Result<(), AllocError>
        ensures here { OnOk result (IsHere self.new) }
        ensures same { self.new.backs ≡ self.old.backs }
    {
        if self.is_here() {
            return Ok(());
        }
        if let Some(choice) = self.choices.last() {
            let len = choice.codes as usize;
            self.stored = false;
            self.code = cut_to_last(&mut self.codes, len)?;
            self.stored = true;
        }
        Ok(())
    }

    /// Back to the newest choice, if it goes on at a place of the code under way; where, and from which cursor. Else
    /// nothing changes.
    #[inline(always)]
    pub fn retry(&mut self) -> Option<(usize, usize)>
        ensures back { IfSome result (λ (place, cursor). IsRetried self.old self.new place cursor) }
        ensures code { self.new.code ≡ self.old.code }
        ensures none { result ≡ None → self.new ≡ self.old }
    {
        let WayBack::To(place) = self.choices.last()?.kept() else {
            return None;
        };
        if !self.is_here() {
            return None;
        }
        let (_kept, _place, cursor) = self.rewind()?;
        self.choices.pop();
        Some((place, cursor))
    }

    /// Back to where the newest choice was kept, which is of the code under way, with the choice: what is gone back to,
    /// the place and the cursor. None where there is no choice.
    #[inline(always)]
    pub fn rewind(&mut self) -> Option<(WayBack, usize, usize)>
        requires { IsHere self.old }
        ensures back { IfSome result (λ (kept, place, cursor). IsKeptAt self.new place cursor kept) }
        ensures same { self.new.backs ≡ self.old.backs }
        ensures code { self.new.code ≡ self.old.code }
        ensures none { result ≡ None → self.old.backs ≡ [] }
    {
        let choice = self.choices.last()?;
        let back = (choice.kept(), choice.place as usize, choice.cursor as usize);
        let (log, pending) = (choice.log as usize, choice.pending as usize);
        self.head = choice.head as usize;
        cut(&mut self.log, log);
        cut(&mut self.pending, pending);
        Some(back)
    }

    /// Whether the newest choice goes on at a further end.
    #[inline(always)]
    pub fn goes_to_end(&self) -> bool {
        match self.choices.last() {
            Some(choice) => matches!(choice.kind, Kind::Arb | Kind::Bal),
            None => false,
        }
    }

    /// Whether the newest note is that of OPEN.
    #[inline(always)]
    pub fn is_open(&self) -> bool
        ensures { result ≡ true → IsOpen self.now }
    {
        matches!(
            newest(self.log.as_slice(), self.head),
            Some((Note::Opened(_), _))
        )
    }
}

/// The newest note of a list, and the list below it.
#[inline(always)]
fn newest(log: &[Entry], head: usize) -> Option<(&Note, usize)>
    ensures some { IfSome result (λ (note, below).
        chain (reverse log.now) head ≡ note_of note.now ∷ chain (reverse log.now) below) }
    ensures none { result ≡ None → chain (reverse log.now) head ≡ [] }
{
    if head == 0 {
        return None;
    }
    let entry = log.get(head - 1)?;
    let below = if entry.below < head { entry.below } else { 0 };
    Some((&entry.note, below))
}

/// The last of the codes, cut to a length. Apart, so that the other way is short.
#[inline(never)]
fn cut_to_last(codes: &mut Vec<PatCode>, len: usize) -> Result<PatCode, AllocError>
    ensures codes { codes.new.items ≡ take len codes.old.items }
    ensures last { IfOk result (λ code. code ≡ last_code (take len codes.old.items)) }
{
    codes.truncate(len);
    match codes.as_slice().last() {
        Some(last) => Ok(last.clone()?),
        None => Ok(PatCode::null()),
    }
}

/// A log cut to a length.
#[inline(always)]
fn cut<T: Drop>(list: &mut Vec<T>, len: usize)
    ensures { list.new.items ≡ take len list.old.items }
{
    if list.len() > len {
        list.truncate(len);
    }
}
