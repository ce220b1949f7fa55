//! Instructions that go on elsewhere.

ghost use Rattle.std.specs.Prelude.{◌≡◌, ◌∷◌, ℕ, List, [], Err, IfSome};
ghost use Rattle.model.specs.Language.Io.{Io};
ghost use Rattle.model.specs.Language.Calls.{return_of};
ghost use Rattle.model.specs.Module.Flow.{V};
ghost use Rattle.model.specs.Machine.Steps.{go_to_return};
ghost use Rattle.model.specs.Module.Images.{module_of};
ghost use Rattle.model.specs.declared.image.Image.{Image};
ghost use Rattle.model.specs.declared.run.Stop.TheVariants.{NoMemory};
ghost use Rattle.instruction_steps.specs.Stopped.{IfHalted};
ghost use Rattle.frames.specs.Kinds.{kinds_of};
ghost use Rattle.loader.specs.Labels.{IsLabelled};
ghost use Rattle.frames.specs.declared.frame.Frame.{Frame};
ghost use Rattle.world.specs.Held.{world_of};
ghost use Rattle.instruction_steps.specs.Calling.{GoesTo, WaitsAsBefore};
ghost use Rattle.instruction_steps.specs.Held.{Left, after, waiting};
ghost use Rattle.segments.specs.Leading.{IsRunnable};

use crate::slots::{NO_STRING, note, slot_at};
use crate::state::State;
use crate::status::Exit;
use frames::pop_value;
use loader::Module;
use model::{ErrorCode, Instr, ReturnKind};
use strings::Text;
use values::Fault;

/// How many labels are noted at most.
const LABELS: u32 = 1024;

/// How many strings of a module are looked at for that.
const STRINGS: u32 = 4096;

/// The place of the statement that a label names, if it is no return. The label may be the string of this number, which
/// saves the look-up.
#[inline(always)]
pub fn entry_of(program: &Module, label: &Text, number: u32) -> Option<usize>
    ensures { IfSome result (λ place. IsLabelled program.now label.now place) }
{
    match program.place_labelled(label, number) {
        Some(place) => Some(place),
        None => find_entry(program, label),
    }
}

// The same by a look-up.
#[cold]
#[inline(never)]
fn find_entry(program: &Module, label: &Text) -> Option<usize>
    ensures { IfSome result (λ place. IsLabelled program.now label.now place) }
{
    let bytes = label.as_slice();
    let None = ReturnKind::named(bytes) else {
        return None;
    };
    let statement = program.label(bytes)?;
    program.statement(statement)
}

/// The place of the statement that a label names, if it is no return, where nothing is known of the label's string. The
/// first call notes which of the first strings label statements, and a label that is noted isn't looked up.
#[inline(always)]
pub fn entry_noted(labels: &mut Vec<u32>, program: &Module, label: &Text) -> Option<usize>
    ensures { IfSome result (λ place. IsLabelled program.now label.now place) }
{
    if labels.is_empty() {
        note_labels(labels, program);
    }
    let number = slot_at(labels.as_slice(), label_number(label));
    entry_of(program, label, number)
}

// Notes which of the first strings label statements, in a table with room for all, as far as there is memory.
#[cold]
#[inline(never)]
fn note_labels(labels: &mut Vec<u32>, program: &Module) {
    let Ok(()) = note(labels, LABELS - 1, NO_STRING) else {
        return;
    };
    for number in 0..STRINGS {
        let Some(label) = program.text(number) else {
            return;
        };
        if let Some(_) = program.place_labelled(label, number) {
            let Ok(()) = note(labels, label_number(label), number) else {
                return;
            };
        }
    }
}

// By which number a label is noted.
#[inline(always)]
fn label_number(label: &Text) -> u32 {
    let mut number = 0u32;
    for byte in label.as_slice() {
        number = number.wrapping_mul(31).wrapping_add(*byte as u32);
    }
    number % LABELS
}

impl State {
    /// To the label that a value is, or out of a call, which is reported.
    pub fn goto_value(&mut self, program: &Module) -> Result<Option<ReturnKind>, Exit>
        requires runnable { IsRunnable program.now }
        requires operands { kinds_of self.old.operands.top ≡ V ∷ [] }
        requires handlers { self.old.handlers.top ≡ [] }
        ensures left { (next : ℕ) (fs : List Frame) (io : Io) →
            GoesTo program.now fs result self.new io (after program.now Instr.GotoV next fs self.old io) }
        ensures waits { WaitsAsBefore self.old self.new }
        ensures stop { IfHalted result (λ stop. stop ≡ NoMemory) }
        ensures names { self.new.world.names ≡ self.old.world.names }
    {
        let label = pop_value(&mut self.operands).to_label(self.alloc);
        match label {
            Ok(label) => self.goto_label(program, label.as_slice()),
            Err(fault) => Err(Exit::Fault(fault)),
        }
    }

    /// To the statement of a label, or out of a call, which is reported.
    pub(crate) fn goto_label(
        &mut self,
        program: &Module,
        label: &[u8],
    ) -> Result<Option<ReturnKind>, Exit>
        requires runnable { IsRunnable program.now }
        requires operands { self.old.operands.top ≡ [] }
        requires handlers { self.old.handlers.top ≡ [] }
        ensures left { (fs : List Frame) (io : Io) →
            GoesTo program.now fs result self.new io
            (go_to_return (module_of program.now) label.now (return_of label.now)
            (waiting program.now fs self.old) (world_of self.old.world io)) }
        ensures waits { WaitsAsBefore self.old self.new }
        ensures stop { IfHalted result (λ stop. stop ≡ NoMemory) }
        ensures names { self.new.world.names ≡ self.old.world.names }
    {
        if let Some(kind) = ReturnKind::named(label) {
            return Ok(Some(kind));
        }
        let Some(number) = program.label(label) else {
            return Err(self.no_label());
        };
        match program.statement(number) {
            Some(place) => {
                self.place = place;
                Ok(None)
            }
            None => unreachable!(),
        }
    }

    /// To the statement of a label, or out of a call, which is reported. The label may be the string of this number.
    #[inline]
    pub fn goto_entry(
        &mut self,
        program: &Module,
        label: &Text,
        number: u32,
    ) -> Result<Option<ReturnKind>, Exit>
        requires runnable { IsRunnable program.now }
        requires operands { self.old.operands.top ≡ [] }
        requires handlers { self.old.handlers.top ≡ [] }
        ensures left { (fs : List Frame) (io : Io) →
            GoesTo program.now fs result self.new io
            (go_to_return (module_of program.now) label.now (return_of label.now)
            (waiting program.now fs self.old) (world_of self.old.world io)) }
        ensures waits { WaitsAsBefore self.old self.new }
        ensures stop { IfHalted result (λ stop. stop ≡ NoMemory) }
        ensures names { self.new.world.names ≡ self.old.world.names }
    {
        match program.place_labelled(label, number) {
            Some(place) => {
                self.place = place;
                Ok(None)
            }
            None => self.goto_label(program, label.as_slice()),
        }
    }

    /// A label that isn't defined.
    pub(crate) fn no_label(&self) -> Exit
        ensures left { (im : Image) (fs : List Frame) (next : ℕ) (io : Io)
            → Left im fs (Err result) self.now io (after im Instr.NoLabel next fs self.now io) }
        ensures stop { IfHalted {A = record {}} (Err result) (λ stop. stop ≡ NoMemory) }
    {
        Exit::Fault(Fault::Error(ErrorCode::UndefinedLabel))
    }
}
