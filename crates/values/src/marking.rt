//! The objects that values hold: they are marked.

ghost use Rattle.std.specs.Prelude.{◌≡◌, OnOk, map};
ghost use Rattle.heap.specs.Marked.{HasMarked, marks_in};
ghost use Rattle.model.specs.Machine.Living.{CodeLives, InstrLives, NameLives, ValueLives, ValuesLive};
ghost use Rattle.pattern_compiler.specs.View.{instr_of, name_of};
ghost use Rattle.values.specs.Values.{value_of};

use crate::value::Value;
use heap::Marks;
use pattern_compiler::{Instr, Name, PatCode, Pattern};
use std::alloc::AllocError;

/// Marks the object that a name names an element of, if it does.
pub fn mark_name(name: &Name, marks: &mut Marks) -> Result<(), AllocError>
    ensures lives { OnOk result (NameLives (marks_in marks.new) (name_of name.now)) }
    ensures grown { OnOk result (HasMarked marks.old marks.new) }
{
    match name {
        Name::Variable(_) => Ok(()),
        Name::Element { object, index: _ } => marks.mark(*object),
        Name::IntegerKey { object, key: _ } => marks.mark(*object),
        Name::StringKey { object, key: _ } => marks.mark(*object as usize),
    }
}

// Marks the object that an instruction assigns into, if it does.
#[inline(always)]
fn mark_instr(instr: &Instr, marks: &mut Marks) -> Result<(), AllocError>
    ensures lives { OnOk result (InstrLives (marks_in marks.new) (instr_of instr.now)) }
    ensures grown { OnOk result (HasMarked marks.old marks.new) }
{
    match instr {
        Instr::Close(name) | Instr::Say(name) | Instr::At(name) => mark_name(name, marks),
        _ => Ok(()),
    }
}

/// Marks the objects that code assigns into.
pub fn mark_code(code: &PatCode, marks: &mut Marks) -> Result<(), AllocError>
    ensures lives { OnOk result (CodeLives (marks_in marks.new) code.now) }
    ensures grown { OnOk result (HasMarked marks.old marks.new) }
{
    let instrs = code.as_slice();
    for instr in instrs {
        mark_instr(instr, marks)?;
    }
    Ok(())
}

// Marks the objects that a pattern assigns into.
#[inline(never)]
fn mark_pattern(pattern: &Pattern, marks: &mut Marks) -> Result<(), AllocError>
    ensures lives { OnOk result (CodeLives (marks_in marks.new) pattern.now) }
    ensures grown { OnOk result (HasMarked marks.old marks.new) }
{
    match pattern.code_or_part() {
        Some(code) => mark_code(code, marks),
        None => Ok(()),
    }
}

/// Marks the objects that values hold.
pub fn mark_values(values: &[Value], marks: &mut Marks) -> Result<(), AllocError>
    ensures lives { OnOk result (ValuesLive (marks_in marks.new) (map value_of values.now)) }
    ensures grown { OnOk result (HasMarked marks.old marks.new) }
{
    for value in values {
        value.mark(marks)?;
    }
    Ok(())
}

impl Value {
    /// Marks the objects that it holds.
    #[inline(always)]
    pub fn mark(&self, marks: &mut Marks) -> Result<(), AllocError>
        ensures lives { OnOk result (ValueLives (marks_in marks.new) (value_of self.now)) }
        ensures grown { OnOk result (HasMarked marks.old marks.new) }
    {
        match self {
            Value::Object(object) => marks.mark(*object),
            Value::Pattern(pattern) => mark_pattern(pattern, marks),
            Value::Name(name) => mark_name(name.as_name(), marks),
            Value::String(_) | Value::Integer(_) | Value::Expression(_) => Ok(()),
        }
    }
}
