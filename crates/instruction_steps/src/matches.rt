//! What a match does to the state around it.

ghost use Rattle.std.specs.Prelude.{◌≡◌, List, [], OnOk, IfOk};
ghost use Rattle.frames.specs.Kinds.{kinds_of};
ghost use Rattle.frames.specs.declared.frame.Frame.{Frame};
ghost use Rattle.match_machine.specs.View.{pending_of, told_of};
ghost use Rattle.model.specs.Machine.Steps.{on_event};
ghost use Rattle.model.specs.Module.Images.{module_of};
ghost use Rattle.model.specs.Language.Operators.{assign_all, assign_op, told_value};
ghost use Rattle.model.specs.Pattern.Steps.{event_of};
ghost use Rattle.model.specs.declared.image.Image.{Image};
ghost use Rattle.pattern_compiler.specs.View.{name_of};
ghost use Rattle.operations.specs.Asking.{Prints, io_after, world_after};
ghost use Rattle.instruction_steps.specs.Asking.{PrintsNext, io_at};
ghost use Rattle.instruction_steps.specs.Held.{Left, waiting};
ghost use Rattle.instruction_steps.specs.Matches.{IsMatched, found_kinds, matching_in};
ghost use Rattle.instruction_steps.specs.Printing.{PrintsTo, PrintsWithin};
ghost use Rattle.instruction_steps.specs.Stopped.{GoesOrHalts, halted_by};
ghost use Rattle.unit_io.specs.Service.{KeepsIo, Served};
ghost use Rattle.values.specs.Answers.{AnswersAs, done, stopped_by};
ghost use Rattle.world.specs.Held.{world_of};
ghost use Rattle.values.specs.Values.{value_of};

use crate::slots::{note, slot_at};
use crate::state::State;
use crate::status::Exit;
use frames::Matching;
use match_machine::{Assignment, Event, Told};
use operations::assign_at;
use pattern_compiler::Name;
use std::alloc::{AllocError, Global};
use strings::Text;
use unit_io::Units;
use values::{Fault, NO_SLOT, Value};
use world::World;

// The number of a name among those that matches assign to. Few share one.
#[inline(always)]
pub fn number_of(name: &Text) -> u32 {
    let bytes = name.as_slice();
    let (Some(first), Some(last)) = (bytes.first(), bytes.last()) else {
        return 0;
    };
    (*first as u32 * 3 + *last as u32 + (bytes.len() % 32) as u32) % 64
}

// Assigns a value to a variable whose slot isn't noted, and notes it, or to an element.
#[cold]
#[inline(never)]
fn assign_noting<U: Units>(
    alloc: Global,
    world: &mut World,
    units: &mut U,
    slots: &mut Vec<u32>,
    name: &Name,
    value: Value,
) -> Result<(), Fault>
    ensures served { Served U.Units (stopped_by result) units.old units.new (λ io io'.
        AnswersAs (done result) (world_of world.new io')
        (assign_op (name_of name.now) (value_of value) (world_of world.old io))) }
    ensures quiet { KeepsIo (stopped_by result) (U.told units.old) (U.told units.new) }
    ensures asked { Prints (U.may_fail units.old) (stopped_by result) (λ io. io_after
        (assign_op (name_of name.now) (value_of value) (world_of world.old io))) }
    ensures names { world.new.names ≡ world.old.names }
{
    let mut slot = NO_SLOT;
    if let Name::Variable(variable) = name {
        slot = world.slot_of(variable);
        note(slots, number_of(variable), slot)?;
    }
    assign_at(world, alloc, units, name, slot, value)
}

// Assigns a value to a name, without a look-up where the slot of its variable is noted.
#[inline(always)]
fn assign<U: Units>(
    alloc: Global,
    world: &mut World,
    units: &mut U,
    slots: &mut Vec<u32>,
    name: &Name,
    value: Value,
) -> Result<(), Fault>
    ensures served { Served U.Units (stopped_by result) units.old units.new (λ io io'.
        AnswersAs (done result) (world_of world.new io')
        (assign_op (name_of name.now) (value_of value) (world_of world.old io))) }
    ensures quiet { KeepsIo (stopped_by result) (U.told units.old) (U.told units.new) }
    ensures asked { Prints (U.may_fail units.old) (stopped_by result) (λ io. io_after
        (assign_op (name_of name.now) (value_of value) (world_of world.old io))) }
    ensures names { world.new.names ≡ world.old.names }
{
    if let Name::Variable(variable) = name {
        let slot = slot_at(slots.as_slice(), number_of(variable));
        if world.is_plain(name, slot) {
            world.set_plain(slot, value);
            return Ok(());
        }
    }
    assign_noting(alloc, world, units, slots, name, value)
}

// The assignments of a match that succeeded, in order, up to the first that ends the run.
fn assign_all<U: Units>(
    alloc: Global,
    world: &mut World,
    units: &mut U,
    slots: &mut Vec<u32>,
    pending: &[Assignment],
) -> Result<(), Fault>
    ensures served { Served U.Units (stopped_by result) units.old units.new (λ io io'.
        AnswersAs (done result) (world_of world.new io')
        (assign_all (pending_of pending.now) (world_of world.old io))) }
    ensures printed { PrintsTo (stopped_by result) (U.told units.old) (U.told units.new) (λ io.
        world_after (assign_all (pending_of pending.now) (world_of world.old io))) }
    ensures next { PrintsNext (U.may_fail units.old) (stopped_by result)
        (U.told units.old) (U.told units.new) (λ io. io_after
        (assign_all (pending_of pending.now) (world_of world.old io))) }
    ensures names { world.new.names ≡ world.old.names }
{
    for assignment in pending {
        let value = Value::String(assignment.value.clone()?);
        assign(alloc, world, units, slots, &assignment.name, value)?;
    }
    Ok(())
}

/// What is assigned within a match. A cursor that no integer holds would need a subject of more memory than there is.
pub fn value_told(told: &Told) -> Result<Value, AllocError>
    ensures { IfOk result (λ value. value_of value ≡ told_value (told_of told.now)) }
{
    match told {
        Told::Text(text) => Ok(Value::String(text.clone()?)),
        Told::Number(n) => match i64::try_from(*n) {
            Ok(n) => Ok(Value::Integer(n)),
            Err(_) => Err(AllocError),
        },
    }
}

impl State {
    /// A match succeeded: its assignments are made in order, and the run goes on after it.
    pub fn matched<U: Units>(&mut self, units: &mut U, matching: &mut Matching) -> Result<(), Exit>
        requires matched { IsMatched (event_of matching.old.search.state) }
        ensures served { Served U.Units (halted_by result) units.old units.new (λ io io'.
            (im : Image) (fs : List Frame) → Left im fs result self.new io'
            (on_event (module_of im) (event_of matching.old.search.state)
            (matching_in im matching.old self.old) matching.old.search.state (waiting im fs self.old)
            (world_of self.old.world io))) }
        ensures printed { (im : Image) (fs : List Frame)
            → PrintsWithin (halted_by result) (U.told units.old) (U.told units.new) (λ io.
            on_event (module_of im) (event_of matching.old.search.state)
            (matching_in im matching.old self.old) matching.old.search.state (waiting im fs self.old)
            (world_of self.old.world io)) }
        ensures next { (im : Image) (fs : List Frame)
            → PrintsNext (U.may_fail units.old) (halted_by result) (U.told units.old) (U.told units.new) (λ io. io_at
            (on_event (module_of im) (event_of matching.old.search.state)
            (matching_in im matching.old self.old) matching.old.search.state (waiting im fs self.old)
            (world_of self.old.world io))) }
        ensures shape { OnOk result
            ((self.new.place ≡ matching.old.place) × (self.new.handlers ≡ self.old.handlers)
            × (self.new.operands.under ≡ self.old.operands.under)
            × (kinds_of self.new.operands.top ≡ found_kinds matching.old.keep (kinds_of self.old.operands.top))
            × (self.new.saved.items ≡ self.old.saved.items)) }
        ensures halts { GoesOrHalts result }
        ensures names { self.new.world.names ≡ self.old.world.names }
    {
        let Event::Matched {
            start,
            end,
            pending,
        } = matching.event()
        else {
            unreachable!()
        };
        if let Err(fault) = assign_all(
            self.alloc,
            &mut self.world,
            units,
            &mut self.assigned,
            pending,
        ) {
            return Err(Exit::Fault(fault));
        }
        self.place = matching.place();
        matching.found(&mut self.operands, start, end)?;
        Ok(())
    }
}
