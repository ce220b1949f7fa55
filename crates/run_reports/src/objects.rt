//! Which arrays, tables and records a dump has, and what they hold.

use crate::dump_values::{
    put_dimensions, put_key, put_name, put_object, put_subscripts, put_value,
};
use heap::{Heap, Marks};
use operations::{mark_reached, no_marks};
use std::alloc::{AllocError, Global};
use values::Value;
use world::World;

/// The marks of the objects that variables lead to.
pub(crate) fn reached(alloc: Global, world: &World) -> Result<Marks, AllocError> {
    let mut marks = no_marks(world, alloc)?;
    world.mark_variables(&mut marks)?;
    if mark_reached(world, &mut marks)? {
        Ok(marks)
    } else {
        Err(AllocError)
    }
}

/// Puts the objects that have a mark, with what they hold.
pub(crate) fn put_marked(
    out: &mut String,
    objects: &Heap<Value>,
    marks: &Marks,
) -> Result<(), AllocError> {
    for object in 0..objects.count() {
        if marks.has(object) {
            put_whole(out, objects, object)?;
        }
    }
    Ok(())
}

// Puts what stands before the value at an index of an object.
fn put_index(
    out: &mut String,
    objects: &Heap<Value>,
    object: usize,
    index: usize,
) -> Result<(), AllocError> {
    if let Some(field) = objects.fields(object).get(index) {
        return put_name(out, field);
    }
    out.push('<')?;
    match objects.table_entry(object, index) {
        Some((key, _value)) => put_key(out, key)?,
        None => put_subscripts(out, objects.bounds(object), index)?,
    }
    out.push('>')?;
    Ok(())
}

// Puts an object, with what it holds. Null elements of arrays and tables are left out.
fn put_whole(out: &mut String, objects: &Heap<Value>, object: usize) -> Result<(), AllocError> {
    put_object(out, objects, object)?;
    let dimensions = objects.bounds(object);
    if !dimensions.is_empty() {
        out.push(' ')?;
        put_dimensions(out, dimensions)?;
    }
    out.push('\n')?;
    let is_record = !objects.fields(object).is_empty();
    for index in 0..usize::MAX {
        let Some(value) = objects.value(object, index) else {
            break;
        };
        if is_record || !value.is_null() {
            out.push_str("  ")?;
            put_index(out, objects, object, index)?;
            out.push_str(" = ")?;
            put_value(out, objects, value)?;
            out.push('\n')?;
        }
    }
    Ok(())
}
