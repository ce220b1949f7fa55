//! Values as a dump has them.

use aggregates::{Bounds, Key, ObjectKind};
use heap::Heap;
use pattern_compiler::Name;
use std::alloc::AllocError;
use strings::Text;
use values::Value;

/// Puts bytes as text. One that isn't printable is put as its number.
fn put_bytes(out: &mut String, bytes: &[u8], quote: u8) -> Result<(), AllocError> {
    for byte in bytes.iter().copied() {
        if (32..=126).contains(&byte) && byte != quote {
            out.push(char::from(byte))?;
        } else {
            write!(out, "\\x{byte:02x}")?;
        }
    }
    Ok(())
}

/// Puts a name.
pub(crate) fn put_name(out: &mut String, name: &Text) -> Result<(), AllocError> {
    put_bytes(out, name.as_slice(), 0)
}

/// Puts a string as a literal.
fn put_string(out: &mut String, text: &[u8]) -> Result<(), AllocError> {
    let quote = if text.contains(&b'\'') && !text.contains(&b'"') {
        b'"'
    } else {
        b'\''
    };
    out.push(char::from(quote))?;
    put_bytes(out, text, quote)?;
    out.push(char::from(quote))?;
    Ok(())
}

/// Puts the kind of an object, or its type, and its number from 1.
pub(crate) fn put_object(
    out: &mut String,
    objects: &Heap<Value>,
    object: usize,
) -> Result<(), AllocError> {
    match objects.kind(object) {
        Some(ObjectKind::Array) => out.push_str("ARRAY")?,
        Some(ObjectKind::Table) => out.push_str("TABLE")?,
        _ => match objects.record_type(object) {
            Some(name) => put_name(out, name)?,
            None => out.push_str("OBJECT")?,
        },
    }
    let number = object.saturating_add(1);
    write!(out, " {number}")
}

// How many subscripts a dimension has.
fn width(bounds: &Bounds) -> usize {
    let width = bounds.high().abs_diff(bounds.low()).saturating_add(1);
    usize::try_from(width).unwrap_or(usize::MAX)
}

// A dimension's subscript of the element with this index, and the index among the dimensions before it.
fn cut_index(bounds: &Bounds, index: usize) -> (i64, usize) {
    let width = width(bounds);
    let before = index.checked_div(width).unwrap_or(0);
    let offset = index.saturating_sub(before.saturating_mul(width));
    let subscript = bounds
        .low()
        .saturating_add(i64::try_from(offset).unwrap_or(i64::MAX));
    (subscript, before)
}

// The subscript of the element with this index in the dimension of this number.
fn subscript_in(dimensions: &[Bounds], dimension: usize, index: usize) -> i64 {
    let mut rest = index;
    for (number, bounds) in dimensions.iter().enumerate().rev() {
        let (subscript, before) = cut_index(bounds, rest);
        if number == dimension {
            return subscript;
        }
        rest = before;
    }
    0
}

/// Puts the subscripts of an array's element with this index.
pub(crate) fn put_subscripts(
    out: &mut String,
    dimensions: &[Bounds],
    index: usize,
) -> Result<(), AllocError> {
    for dimension in 0..dimensions.len() {
        if dimension > 0 {
            out.push(',')?;
        }
        let subscript = subscript_in(dimensions, dimension, index);
        write!(out, "{subscript}")?;
    }
    Ok(())
}

/// Puts the dimensions of an array.
pub(crate) fn put_dimensions(out: &mut String, dimensions: &[Bounds]) -> Result<(), AllocError> {
    for (number, bounds) in dimensions.iter().enumerate() {
        if number > 0 {
            out.push(',')?;
        }
        let (low, high) = (bounds.low(), bounds.high());
        write!(out, "{low}:{high}")?;
    }
    Ok(())
}

/// Puts a key of a table.
pub(crate) fn put_key(out: &mut String, key: &Key) -> Result<(), AllocError> {
    match key {
        Key::Integer(n) => write!(out, "{n}"),
        Key::String(text) => put_string(out, text.as_slice()),
    }
}

// Puts an element of an array or a field of a record by its index.
fn put_element(
    out: &mut String,
    objects: &Heap<Value>,
    object: usize,
    index: usize,
) -> Result<(), AllocError> {
    if let Some(field) = objects.fields(object).get(index) {
        put_name(out, field)?;
        out.push('(')?;
        put_object(out, objects, object)?;
        out.push(')')?;
        return Ok(());
    }
    put_object(out, objects, object)?;
    out.push('<')?;
    put_subscripts(out, objects.bounds(object), index)?;
    out.push('>')?;
    Ok(())
}

// Puts what a name names.
fn put_named(out: &mut String, objects: &Heap<Value>, name: &Name) -> Result<(), AllocError> {
    match name {
        Name::Variable(name) => put_name(out, name),
        Name::Element { object, index } => put_element(out, objects, *object, *index),
        Name::IntegerKey { object, key } => {
            put_object(out, objects, *object)?;
            write!(out, "<{key}>")
        }
        Name::StringKey { object, key } => {
            put_object(out, objects, *object as usize)?;
            out.push('<')?;
            put_string(out, key.as_slice())?;
            out.push('>')?;
            Ok(())
        }
    }
}

/// Puts a value: a string as a literal, an array, a table or a record by its number, and of a pattern and an expression
/// that it is one.
pub(crate) fn put_value(
    out: &mut String,
    objects: &Heap<Value>,
    value: &Value,
) -> Result<(), AllocError> {
    match value {
        Value::String(text) => put_string(out, text.as_slice()),
        Value::Integer(n) => write!(out, "{n}"),
        Value::Pattern(_) => {
            out.push_str("PATTERN")?;
            Ok(())
        }
        Value::Expression(_) => {
            out.push_str("EXPRESSION")?;
            Ok(())
        }
        Value::Name(name) => {
            out.push('.')?;
            put_named(out, objects, name.as_name())
        }
        Value::Object(object) => put_object(out, objects, *object),
    }
}
