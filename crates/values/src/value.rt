//! Values.

ghost use Rattle.std.specs.Prelude.{◌≡◌, ◌++◌, ◌+◌, ◌≤◌, [], IfOk, OnErr, OnOk, replicate, vec_capacity, vec_len};
ghost use Rattle.model.specs.Language.Values.{Str};
ghost use Rattle.model.specs.Language.Conversions.{is_null, to_pattern, to_text};
ghost use Rattle.model.specs.Machine.Steps.{codes_of};
ghost use Rattle.model.specs.declared.run.Stop.TheVariants.{NoMemory};
ghost use Rattle.values.specs.Answers.{Converts, IfStopped};
ghost use Rattle.values.specs.Values.{value_of, has_text};

use crate::fault::Fault;
use crate::shared_name::SharedName;
use aggregates::{Element, Key};
use model::ErrorCode;
use pattern_compiler::{PatCode, Pattern};
use std::alloc::{AllocError, Global};
use strings::Text;

/// A value. Its clones share its bytes, its code and its name.
pub enum Value {
    String(Text),
    Integer(i64),
    Pattern(Pattern),
    Name(SharedName),
    /// An expression that isn't evaluated, by its number.
    Expression(u32),
    /// An array, a table or a record, by its number in the order of making.
    Object(usize),
}

const _: () = prove!(size_of::<Value>() <= 32);

impl Drop for Value {
    #[inline(always)]
    fn drop(self) {
        match self {
            Value::String(_) | Value::Pattern(_) | Value::Name(_) => {}
            Value::Integer(_) | Value::Expression(_) | Value::Object(_) => {}
        }
    }
}

impl Clone for Value {
    ghost use Rattle.std.specs.Prelude.{◌≡◌};

    ghost is_clone = { λ value copy. copy ≡ value };

    #[inline(always)]
    fn clone(&self) -> Result<Value, AllocError> {
        match self {
            Value::String(text) => Ok(Value::String(text.clone()?)),
            Value::Integer(n) => Ok(Value::Integer(*n)),
            Value::Pattern(pattern) => of_pattern(pattern),
            Value::Name(name) => of_name(name),
            Value::Expression(expr) => Ok(Value::Expression(*expr)),
            Value::Object(object) => Ok(Value::Object(*object)),
        }
    }
}

// The same pattern. It stands apart, so that a copy of what is usual has no room for it.
#[inline(never)]
fn of_pattern(pattern: &Pattern) -> Result<Value, AllocError>
    ensures { IfOk result (λ value. value ≡ Value.Pattern pattern.now) }
{
    Ok(Value::Pattern(pattern.clone()?))
}

// The same name.
#[inline(never)]
fn of_name(name: &SharedName) -> Result<Value, AllocError>
    ensures { IfOk result (λ value. value ≡ Value.Name name.now) }
{
    Ok(Value::Name(name.clone()?))
}

impl Element for Value {
    ghost use Rattle.model.specs.Language.Conversions.{is_null};
    ghost use Rattle.values.specs.Values.{value_of, held_key};

    ghost null_test = { λ v. is_null (value_of v) };

    ghost key_value = { held_key };

    fn is_null(&self) -> bool {
        match self {
            Value::String(text) => text.is_empty(),
            _ => false,
        }
    }

    #[inline(always)]
    fn put(&mut self, value: Value) {
        if let (Value::Integer(old), Value::Integer(n)) = (&mut *self, &value) {
            *old = *n;
            return;
        }
        *self = value;
    }

    fn append(&self, items: &mut Vec<Value>, count: usize) -> Result<(), AllocError> {
        items.reserve(count)?;
        match self {
            Value::Integer(n) => {
                append_integers(*n, items, count);
                Ok(())
            }
            Value::String(text) if text.is_empty() => {
                append_nulls(items, count);
                Ok(())
            }
            _ => append_clones(self, items, count),
        }
    }

    fn from_key(key: &Key) -> Result<Value, AllocError> {
        match key {
            Key::Integer(n) => Ok(Value::Integer(*n)),
            Key::String(text) => Ok(Value::String(text.clone()?)),
        }
    }

    ghost clones = { λ value copy h. h };
}

// Puts an integer behind some values, so many times.
fn append_integers(n: i64, items: &mut Vec<Value>, count: usize)
    requires room { vec_len items.old + count ≤ vec_capacity items.old }
    ensures { items.new.items ≡ items.old.items ++ replicate count (Value.Integer n) }
{
    for _turn in 0..count {
        items.push_reserved(Value::Integer(n));
    }
}

// Puts the null string behind some values, so many times.
fn append_nulls(items: &mut Vec<Value>, count: usize)
    requires room { vec_len items.old + count ≤ vec_capacity items.old }
    ensures { items.new.items ≡ items.old.items ++ replicate count (Value.String []) }
{
    for _turn in 0..count {
        items.push_reserved(Value::String(Text::null()));
    }
}

// Puts so many clones of a value behind some values.
#[inline(never)]
fn append_clones(value: &Value, items: &mut Vec<Value>, count: usize) -> Result<(), AllocError>
    requires room { vec_len items.old + count ≤ vec_capacity items.old }
    ensures appended { OnOk result (items.new.items ≡ items.old.items ++ replicate count value.now) }
    ensures refused { OnErr result (items.new.items ≡ items.old.items) }
{
    let len = items.len();
    for _turn in 0..count {
        let Ok(copy) = value.clone() else {
            items.truncate(len);
            return Err(AllocError);
        };
        items.push_reserved(copy);
    }
    Ok(())
}

impl Value {
    /// The null string. Takes no memory.
    pub fn null() -> Value
        ensures { value_of result ≡ Str [] }
    {
        Value::String(Text::null())
    }

    /// Whether it is the null string.
    pub fn is_null(&self) -> bool
        ensures { result ≡ is_null (value_of self.now) }
    {
        match self {
            Value::String(text) => text.is_empty(),
            _ => false,
        }
    }

    /// Whether it converts to a string.
    pub fn has_text(&self) -> bool
        ensures { result ≡ has_text (value_of self.now) }
    {
        match self {
            Value::String(_) => true,
            Value::Integer(_) => true,
            _ => false,
        }
    }

    /// `to_text` of a value that isn't needed any more, whose string isn't copied.
    #[inline(always)]
    pub fn into_text(self, alloc: Global) -> Result<Text, Fault>
        ensures text { Converts result (to_text (value_of self)) }
        ensures stop { IfStopped result (λ stop. stop ≡ NoMemory) }
    {
        match self {
            Value::String(text) => Ok(text),
            Value::Integer(n) => Ok(Text::int_text(alloc, n)?),
            Value::Pattern(_) | Value::Name(_) | Value::Expression(_) | Value::Object(_) => {
                Err(Fault::Error(ErrorCode::WrongType))
            }
        }
    }

    /// `to_pattern` of a value that isn't needed any more, whose text and code aren't copied.
    #[inline(always)]
    pub fn into_pattern(self, alloc: Global) -> Result<Pattern, Fault>
        ensures pattern { Converts result (to_pattern codes_of (value_of self)) }
        ensures stop { IfStopped result (λ stop. stop ≡ NoMemory) }
    {
        match self {
            Value::String(text) => Ok(Pattern::lit(text)),
            Value::Integer(n) => Ok(Pattern::lit(Text::int_text(alloc, n)?)),
            Value::Pattern(pattern) => Ok(pattern),
            Value::Expression(expr) => Ok(Pattern::of(PatCode::defer(alloc, expr)?)),
            Value::Name(_) | Value::Object(_) => Err(Fault::Error(ErrorCode::WrongType)),
        }
    }
}
