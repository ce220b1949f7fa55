//! Names that are fetched and assigned to. A variable may read its value from a unit, or write it to one.

ghost use Rattle.std.specs.Prelude.{◌≡◌, ◌≢◌, ◌⊎◌, Some, None, Ok, option_map, IfOk, IfErr, OnOk, OnErr};
ghost use Rattle.model.specs.Language.Io.{Io};
ghost use Rattle.model.specs.Deck.Target.{Variable};
ghost use Rattle.model.specs.Language.Operators.{fetch_op, take_record, as_read, assign_op};
ghost use Rattle.model.specs.Language.Operators.{splice_op, write_var, print_text};
ghost use Rattle.model.specs.Language.Conversions.{to_text};
ghost use Rattle.model.specs.Language.Calls.{as_value};
ghost use Rattle.model.specs.Machine.Steps.{MVal};
ghost use Rattle.model.specs.declared.run.Stop.TheVariants.{NoMemory};
ghost use Rattle.pattern_compiler.specs.View.{name_of};
ghost use Rattle.values.specs.Values.{value_of};
ghost use Rattle.world.specs.Held.{WorldView, IsSet, IsSetOrKept, world_of, taken, variable_at, value_in};
ghost use Rattle.world.specs.Calling.{given_of};
ghost use Rattle.operations.specs.Asking.{Prints, Takes, io_after};
ghost use Rattle.values.specs.Answers.{answer_map, AnswersAs, AnswersOrFails, done, IfStopped, stop_of, stopped_by};
ghost use Rattle.unit_io.specs.Service.{KeepsIo, ReadsOne, Served};

use crate::elements::{element, entry, store};
use crate::operators::replaced;
use aggregates::{ElementPlace, Key};
use model::{ErrorCode, KeyId, Stop, UnitFault};
use pattern_compiler::Name;
use std::alloc::Global;
use strings::{StrFault, Text, trim_end};
use unit_io::Units;
use values::{Fault, NO_SLOT, Span, Value};
use world::{Given, World, is_zero};

/// The value of a name. A variable that has a unit reads a record; at the unit's end that fails. A fault leaves the
/// world, and so does the end of a unit.
pub fn fetch<U: Units>(
    world: &mut World,
    units: &mut U,
    name: &Name,
) -> Result<Option<Value>, Fault>
    ensures served { Served U.Units (stopped_by result) units.old units.new (λ io io'.
        AnswersOrFails (answer_map (option_map value_of) result) (world_of world.new io')
        (fetch_op (name_of name.now) (world_of world.old io))) }
    ensures quiet { ReadsOne (stopped_by result) (U.told units.old) (U.told units.new) }
    ensures asked { Takes (U.may_fail units.old) (stopped_by result) (λ io. io_after
        (fetch_op (name_of name.now) (world_of world.old io))) }
    ensures err { OnErr result (world.new ≡ world.old) }
    ensures end { result ≡ Ok None → world.new ≡ world.old }
    ensures names { world.new.names ≡ world.old.names }
{
    fetch_at(world, units, name, NO_SLOT)
}

/// `fetch`, without a look-up if the name is that of the variable in this slot.
#[inline(always)]
pub fn fetch_at<U: Units>(
    world: &mut World,
    units: &mut U,
    name: &Name,
    slot: u32,
) -> Result<Option<Value>, Fault>
    ensures served { Served U.Units (stopped_by result) units.old units.new (λ io io'.
        AnswersOrFails (answer_map (option_map value_of) result) (world_of world.new io')
        (fetch_op (name_of name.now) (world_of world.old io))) }
    ensures quiet { ReadsOne (stopped_by result) (U.told units.old) (U.told units.new) }
    ensures asked { Takes (U.may_fail units.old) (stopped_by result) (λ io. io_after
        (fetch_op (name_of name.now) (world_of world.old io))) }
    ensures err { OnErr result (world.new ≡ world.old) }
    ensures end { result ≡ Ok None → world.new ≡ world.old }
    ensures names { world.new.names ≡ world.old.names }
{
    match name {
        Name::Variable(name) => fetch_variable(world, units, name, slot),
        Name::Element { object, index } => element(world, *object, *index),
        Name::IntegerKey { object, key } => entry(world, *object, Key::Integer(*key)),
        Name::StringKey { object, key } => {
            entry(world, *object as usize, Key::String(key.clone()?))
        }
    }
}

// The value of a variable, or the next record of the unit that it reads from.
fn fetch_variable<U: Units>(
    world: &mut World,
    units: &mut U,
    name: &Text,
    slot: u32,
) -> Result<Option<Value>, Fault>
    ensures served { Served U.Units (stopped_by result) units.old units.new (λ io io'.
        AnswersOrFails (answer_map (option_map value_of) result) (world_of world.new io')
        (fetch_op (Variable name.now) (world_of world.old io))) }
    ensures quiet { ReadsOne (stopped_by result) (U.told units.old) (U.told units.new) }
    ensures asked { Takes (U.may_fail units.old) (stopped_by result) (λ io. io_after
        (fetch_op (Variable name.now) (world_of world.old io))) }
    ensures err { OnErr result (world.new ≡ world.old) }
    ensures end { result ≡ Ok None → world.new ≡ world.old }
    ensures names { world.new.names ≡ world.old.names }
{
    let unit = match world.variable(name, slot) {
        None => return Ok(Some(Value::null())),
        Some(variable) => match world.reads(variable) {
            None => return Ok(Some(variable.value.clone()?)),
            Some(unit) => unit,
        },
    };
    read(world, units, name, slot, unit)
}

// A unit's next record, which a variable takes as its value.
#[inline(never)]
fn read<U: Units>(
    world: &mut World,
    units: &mut U,
    name: &Text,
    slot: u32,
    unit: u8,
) -> Result<Option<Value>, Fault>
    ensures served { Served U.Units (stopped_by result) units.old units.new (λ io io'.
        AnswersOrFails (answer_map (option_map value_of) result) (world_of world.new io')
        (take_record name.now unit (io.left unit) (world_of world.old io))) }
    ensures quiet { ReadsOne (stopped_by result) (U.told units.old) (U.told units.new) }
    ensures asked { Takes (U.may_fail units.old) (stopped_by result) (λ io. io_after
        (take_record name.now unit (io.left unit) (world_of world.old io))) }
    ensures err { OnErr result (world.new ≡ world.old) }
    ensures end { result ≡ Ok None → world.new ≡ world.old }
    ensures names { world.new.names ≡ world.old.names }
{
    match units.read_record(unit) {
        Ok(Some(line)) => take(world, name, slot, line),
        Ok(None) => Ok(None),
        Err(cause) => Err(Fault::Stop(stop_of(unit, cause))),
    }
}

// A variable takes a record as its value.
fn take(world: &mut World, name: &Text, slot: u32, line: Text) -> Result<Option<Value>, Fault>
    ensures taken { (io : Io)
        → AnswersOrFails (answer_map (option_map value_of) result) (world_of world.new io)
        (taken name.now line (world_of world.old io)) }
    ensures stop { IfStopped result (λ stop. stop ≡ NoMemory) }
    ensures err { OnErr result (world.new ≡ world.old) }
    ensures some { IfOk result (λ got. got ≢ None) }
    ensures names { world.new.names ≡ world.old.names }
{
    let text = as_read(world, line)?;
    if text.len() > world.longest() {
        return Err(Fault::Error(ErrorCode::StringTooLong));
    }
    let copy = text.clone()?;
    let _unit = world.set(name, slot, Value::String(text))?;
    Ok(Some(Value::String(copy)))
}

// A record as it is read: without blanks at its end, unless `&TRIM` is 0.
fn as_read(world: &World, line: Text) -> Result<Text, StrFault>
    ensures ok { IfOk result (λ text. (io : Io) → text ≡ as_read line (world_of world.now io)) }
    ensures err { IfErr result (λ fault. fault ≡ StrFault.Memory) }
{
    if is_zero(world.keywords(), KeyId::Trim) {
        return Ok(line);
    }
    let end = trim_end(line.as_slice()).len();
    line.sub(0, end)
}

/// Assigns a value to a name. A variable that has a unit writes a record, after it has the value: a fault leaves
/// the world, or the variable with that value.
pub fn assign<U: Units>(
    world: &mut World,
    alloc: Global,
    units: &mut U,
    name: &Name,
    value: Value,
) -> Result<(), Fault>
    ensures served { Served U.Units (stopped_by result) units.old units.new (λ io io'.
        AnswersAs (done result) (world_of world.new io')
        (assign_op (name_of name.now) (value_of value) (world_of world.old io))) }
    ensures quiet { KeepsIo (stopped_by result) (U.told units.old) (U.told units.new) }
    ensures asked { Prints (U.may_fail units.old) (stopped_by result) (λ io. io_after
        (assign_op (name_of name.now) (value_of value) (world_of world.old io))) }
    ensures ok { OnOk result (IsSet (name_of name.now) (value_of value) world.old world.new) }
    ensures err { OnErr result
        (IsSetOrKept (name_of name.now) (value_of value) world.old world.new) }
    ensures names { world.new.names ≡ world.old.names }
{
    assign_at(world, alloc, units, name, NO_SLOT, value)
}

/// `assign`, without a look-up if the name is that of the variable in this slot.
#[inline(always)]
pub fn assign_at<U: Units>(
    world: &mut World,
    alloc: Global,
    units: &mut U,
    name: &Name,
    slot: u32,
    value: Value,
) -> Result<(), Fault>
    ensures served { Served U.Units (stopped_by result) units.old units.new (λ io io'.
        AnswersAs (done result) (world_of world.new io')
        (assign_op (name_of name.now) (value_of value) (world_of world.old io))) }
    ensures quiet { KeepsIo (stopped_by result) (U.told units.old) (U.told units.new) }
    ensures asked { Prints (U.may_fail units.old) (stopped_by result) (λ io. io_after
        (assign_op (name_of name.now) (value_of value) (world_of world.old io))) }
    ensures ok { OnOk result (IsSet (name_of name.now) (value_of value) world.old world.new) }
    ensures err { OnErr result
        (IsSetOrKept (name_of name.now) (value_of value) world.old world.new) }
    ensures names { world.new.names ≡ world.old.names }
{
    match name {
        Name::Variable(name) => assign_variable(world, alloc, units, name, slot, value),
        Name::Element { object, index } => store(
            world,
            *object,
            ElementPlace::Element(*index),
            value,
        ),
        Name::IntegerKey { object, key } => {
            store(world, *object, ElementPlace::Key(Key::Integer(*key)), value)
        }
        Name::StringKey { object, key } => {
            let key = Key::String(key.clone()?);
            store(world, *object as usize, ElementPlace::Key(key), value)
        }
    }
}

// Assigns a value to a variable, and writes it where the variable has a unit.
fn assign_variable<U: Units>(
    world: &mut World,
    alloc: Global,
    units: &mut U,
    name: &Text,
    slot: u32,
    value: Value,
) -> Result<(), Fault>
    ensures served { Served U.Units (stopped_by result) units.old units.new (λ io io'.
        AnswersAs (done result) (world_of world.new io')
        (assign_op (Variable name.now) (value_of value) (world_of world.old io))) }
    ensures quiet { KeepsIo (stopped_by result) (U.told units.old) (U.told units.new) }
    ensures asked { Prints (U.may_fail units.old) (stopped_by result) (λ io. io_after
        (assign_op (Variable name.now) (value_of value) (world_of world.old io))) }
    ensures ok { OnOk result (IsSet (Variable name.now) (value_of value) world.old world.new) }
    ensures err { OnErr result
        (IsSetOrKept (Variable name.now) (value_of value) world.old world.new) }
    ensures names { world.new.names ≡ world.old.names }
{
    match world.set(name, slot, value)? {
        Some(unit) => write(world, alloc, units, name, slot, unit),
        None => Ok(()),
    }
}

/// Assigns to a name the subject of a match with a value in the place of what was found. Nothing else changes.
pub fn splice<U: Units>(
    world: &mut World,
    alloc: Global,
    units: &mut U,
    name: &Name,
    span: &Span,
    value: &Value,
) -> Result<(), Fault>
    ensures served { Served U.Units (stopped_by result) units.old units.new (λ io io'.
        AnswersAs (done result) (world_of world.new io')
        (splice_op (name_of name.now) span.now.subject span.now.start span.now.end
        (value_of value.now) (world_of world.old io))) }
    ensures quiet { KeepsIo (stopped_by result) (U.told units.old) (U.told units.new) }
    ensures asked { Prints (U.may_fail units.old) (stopped_by result) (λ io. io_after
        (splice_op (name_of name.now) span.now.subject span.now.start span.now.end
        (value_of value.now) (world_of world.old io))) }
    ensures only { (world.new ≡ world.old) ⊎
        ((v : MVal) × IsSet (name_of name.now) v world.old world.new) }
    ensures names { world.new.names ≡ world.old.names }
{
    splice_at(world, alloc, units, name, NO_SLOT, span, value)
}

/// `splice`, without a look-up if the name is that of the variable in this slot.
pub fn splice_at<U: Units>(
    world: &mut World,
    alloc: Global,
    units: &mut U,
    name: &Name,
    slot: u32,
    span: &Span,
    value: &Value,
) -> Result<(), Fault>
    ensures served { Served U.Units (stopped_by result) units.old units.new (λ io io'.
        AnswersAs (done result) (world_of world.new io')
        (splice_op (name_of name.now) span.now.subject span.now.start span.now.end
        (value_of value.now) (world_of world.old io))) }
    ensures quiet { KeepsIo (stopped_by result) (U.told units.old) (U.told units.new) }
    ensures asked { Prints (U.may_fail units.old) (stopped_by result) (λ io. io_after
        (splice_op (name_of name.now) span.now.subject span.now.start span.now.end
        (value_of value.now) (world_of world.old io))) }
    ensures only { (world.new ≡ world.old) ⊎
        ((v : MVal) × IsSet (name_of name.now) v world.old world.new) }
    ensures names { world.new.names ≡ world.old.names }
{
    let whole = replaced(world, alloc, span, value)?;
    assign_at(world, alloc, units, name, slot, whole)
}

// Writes a variable's value, unless `&OUTPUT` is 0.
#[inline(never)]
fn write<U: Units>(
    world: &World,
    alloc: Global,
    units: &mut U,
    name: &Text,
    slot: u32,
    unit: u8,
) -> Result<(), Fault>
    ensures served { Served U.Units (stopped_by result) units.old units.new (λ io io'.
        AnswersAs (done result) (world_of world.now io')
        (write_var (Some unit) (value_in (variable_at name.now world.now.variables))
        (world_of world.now io))) }
    ensures quiet { KeepsIo (stopped_by result) (U.told units.old) (U.told units.new) }
    ensures asked { Prints (U.may_fail units.old) (stopped_by result) (λ io. io_after
        (write_var (Some unit) (value_in (variable_at name.now world.now.variables))
        (world_of world.now io))) }
{
    if is_zero(world.keywords(), KeyId::Output) {
        return Ok(());
    }
    match world.variable(name, slot) {
        Some(variable) => print(alloc, units, unit, &variable.value),
        None => print(alloc, units, unit, &Value::null()),
    }
}

/// The value of what a call gave, where a value is wanted. That of a name is fetched.
pub fn returned_value<U: Units>(
    world: &mut World,
    units: &mut U,
    given: Given,
) -> Result<Option<Value>, Fault>
    ensures served { Served U.Units (stopped_by result) units.old units.new (λ io io'.
        AnswersOrFails (answer_map (option_map value_of) result) (world_of world.new io')
        (as_value (given_of given) (world_of world.old io))) }
    ensures quiet { ReadsOne (stopped_by result) (U.told units.old) (U.told units.new) }
    ensures asked { Takes (U.may_fail units.old) (stopped_by result) (λ io. io_after
        (as_value (given_of given) (world_of world.old io))) }
    ensures err { OnErr result (world.new ≡ world.old) }
    ensures names { world.new.names ≡ world.old.names }
{
    match given {
        Given::Value(value) => Ok(Some(value)),
        Given::Name(name) => fetch(world, units, &name),
    }
}

// Writes a value as a record.
fn print<U: Units>(alloc: Global, units: &mut U, unit: u8, value: &Value) -> Result<(), Fault>
    ensures served { Served U.Units (stopped_by result) units.old units.new (λ io io'.
        (h : WorldView) → AnswersAs (done result) (world_of h io')
        (print_text unit (to_text (value_of value.now)) (world_of h io))) }
    ensures quiet { KeepsIo (stopped_by result) (U.told units.old) (U.told units.new) }
    ensures asked { (h : WorldView) → Prints (U.may_fail units.old) (stopped_by result) (λ io. io_after
        (print_text unit (to_text (value_of value.now)) (world_of h io))) }
{
    let text = match value.to_text(alloc) {
        Ok(text) => text,
        Err(Fault::Error(_)) => return Err(Fault::Error(ErrorCode::NotPrintable)),
        Err(stop) => return Err(stop),
    };
    match units.write_record(unit, text.as_slice()) {
        Ok(()) => Ok(()),
        Err(cause) => Err(Fault::Stop(stop_of(unit, cause))),
    }
}

// Why a run stops where a unit refuses a call.
fn stop_of(unit: u8, cause: UnitFault) -> Stop
    ensures { result ≡ stop_of unit cause }
{
    match cause {
        UnitFault::Memory => Stop::NoMemory,
        _ => Stop::Unit { unit, cause },
    }
}
