//! Conversions of values.

ghost use Rattle.std.specs.Prelude.{◌≡◌, ◌<◌, ◌^◌, IfSome};
ghost use Rattle.std.specs.Str.Parse.{AllDigits, digits_value};
ghost use Rattle.model.specs.Language.Conversions.{to_text, to_integer, to_pattern, to_name, to_label};
ghost use Rattle.model.specs.Language.Conversions.{to_variable, then_conv, count_of, set_of, read_integer};
ghost use Rattle.model.specs.Machine.Steps.{codes_of};
ghost use Rattle.model.specs.declared.run.Stop.TheVariants.{NoMemory};
ghost use Rattle.pattern_compiler.specs.View.{name_of};
ghost use Rattle.values.specs.Values.{value_of};
ghost use Rattle.values.specs.Answers.{answer_map, conv_of, Converts, IfStopped};

use crate::fault::Fault;
use crate::value::Value;
use model::ErrorCode;
use pattern_compiler::{Name, PatCode};
use std::alloc::Global;
use strings::{Text, read_int};

impl Value {
    /// The string that it is, or the digits of the integer that it is.
    pub fn to_text(&self, alloc: Global) -> Result<Text, Fault>
        ensures text { Converts result (to_text (value_of self.now)) }
        ensures stop { IfStopped result (λ stop. stop ≡ NoMemory) }
    {
        match self {
            Value::String(text) => Ok(text.clone()?),
            Value::Integer(n) => Ok(Text::int_text(alloc, *n)?),
            _ => Err(Fault::Error(ErrorCode::WrongType)),
        }
    }

    /// The integer that it is, or that its digits stand for. Takes no memory.
    #[inline(always)]
    pub fn to_int(&self) -> Result<i64, ErrorCode>
        ensures { conv_of result ≡ to_integer (value_of self.now) }
    {
        match self {
            Value::String(text) => integer_of(text.as_slice()),
            Value::Integer(n) => Ok(*n),
            _ => Err(ErrorCode::WrongType),
        }
    }

    /// The pattern that it is, or that matches it, or that it gives where it is reached.
    pub fn to_pattern(&self, alloc: Global) -> Result<PatCode, Fault>
        ensures pattern { Converts result (to_pattern codes_of (value_of self.now)) }
        ensures stop { IfStopped result (λ stop. stop ≡ NoMemory) }
    {
        match self {
            Value::String(text) => Ok(PatCode::lit(alloc, text)?),
            Value::Integer(n) => Ok(PatCode::lit(alloc, &Text::int_text(alloc, *n)?)?),
            Value::Pattern(pattern) => Ok(pattern.to_code(alloc)?),
            Value::Expression(expr) => Ok(PatCode::defer(alloc, *expr)?),
            Value::Name(_) | Value::Object(_) => Err(Fault::Error(ErrorCode::WrongType)),
        }
    }

    /// The name that it is, or the name of the variable that its text names.
    pub fn to_name(&self, alloc: Global) -> Result<Name, Fault>
        ensures name { Converts (answer_map name_of result) (to_name (value_of self.now)) }
        ensures stop { IfStopped result (λ stop. stop ≡ NoMemory) }
    {
        match self {
            Value::String(text) => {
                if text.is_empty() {
                    return Err(Fault::Error(ErrorCode::NotAName));
                }
                Ok(Name::Variable(text.clone()?))
            }
            Value::Integer(n) => Ok(Name::Variable(Text::int_text(alloc, *n)?)),
            Value::Name(name) => Ok(name.as_name().clone()?),
            _ => Err(Fault::Error(ErrorCode::WrongType)),
        }
    }

    /// The label that it stands for: its text, or the name of the variable that it names.
    pub fn to_label(&self, alloc: Global) -> Result<Text, Fault>
        ensures label { Converts result (to_label (value_of self.now)) }
        ensures stop { IfStopped result (λ stop. stop ≡ NoMemory) }
    {
        match self {
            Value::String(text) => Ok(text.clone()?),
            Value::Integer(n) => Ok(Text::int_text(alloc, *n)?),
            Value::Name(name) => match name.as_name() {
                Name::Variable(text) => Ok(text.clone()?),
                _ => Err(Fault::Error(ErrorCode::WrongType)),
            },
            _ => Err(Fault::Error(ErrorCode::WrongType)),
        }
    }

    /// The name of the variable that it names.
    pub fn to_variable(&self, alloc: Global) -> Result<Text, Fault>
        ensures variable { Converts result (to_variable (value_of self.now)) }
        ensures stop { IfStopped result (λ stop. stop ≡ NoMemory) }
    {
        match &self.to_name(alloc)? {
            Name::Variable(text) => Ok(text.clone()?),
            _ => Err(Fault::Error(ErrorCode::NotAName)),
        }
    }

    /// The integer that it is or stands for, which a count isn't below 0. Takes no memory.
    pub fn to_count(&self) -> Result<u64, ErrorCode>
        ensures { conv_of result ≡ then_conv (to_integer (value_of self.now)) count_of }
    {
        let n = self.to_int()?;
        if n < 0 {
            return Err(ErrorCode::BadPatternArgument);
        }
        Ok(n as u64)
    }

    /// The bytes of the string that it is, of which a set has at least one.
    pub fn to_bytes(&self, alloc: Global) -> Result<Text, Fault>
        ensures bytes { Converts result (then_conv (to_text (value_of self.now)) set_of) }
        ensures stop { IfStopped result (λ stop. stop ≡ NoMemory) }
    {
        let text = self.to_text(alloc)?;
        if text.is_empty() {
            return Err(Fault::Error(ErrorCode::BadPatternArgument));
        }
        Ok(text)
    }
}

// The integer that a text stands for; the null string stands for 0.
#[inline(never)]
fn integer_of(text: &[u8]) -> Result<i64, ErrorCode>
    ensures { conv_of result ≡ read_integer text.now }
{
    if text.is_empty() {
        return Ok(0);
    }
    if let Some(n) = digits_of(text) {
        return Ok(n as i64);
    }
    match read_int(text) {
        Some(n) => Ok(n),
        None => Err(ErrorCode::NotAnInteger),
    }
}

// What up to 17 digits write, if nothing else stands there.
#[inline(always)]
fn digits_of(text: &[u8]) -> Option<u64>
    ensures { IfSome result (λ n. AllDigits 10 text.now × (n ≡ digits_value 10 text.now) × (n < 2 ^ 63)) }
{
    let mut n = 0u64;
    for byte in text {
        let byte = *byte;
        if byte < b'0' || byte > b'9' || n >= 10_000_000_000_000_000 {
            return None;
        }
        n = n * 10 + (byte - b'0') as u64;
    }
    Some(n)
}
