//! The objects that a world reaches: they are marked, and the others are given back.

ghost use Rattle.std.specs.Prelude.{◌≡◌, IfOk, OnOk, length, true};
ghost use Rattle.heap.specs.Marked.{HasMarked, marks_in, unmarked};
ghost use Rattle.model.specs.Machine.Living.{Grows};
ghost use Rattle.operations.specs.Marking.{AreMarksOf, LivesAt, ObjectsLive, without_unmarked};

use heap::Marks;
use std::alloc::{AllocError, Global};
use world::World;

/// How much was made of objects so far, counted in values. No contract speaks of it.
#[inline(always)]
pub fn made_size(world: &World) -> usize {
    world.objects().made_size()
}

/// No mark on any object.
pub fn no_marks(world: &World, alloc: Global) -> Result<Marks, AllocError>
    ensures { IfOk result (λ marks. marks ≡ unmarked (length world.now.objects)) }
{
    Marks::none(alloc, world.objects().count())
}

/// How much objects hold, told in values. No contract speaks of it.
pub fn held_size(world: &World) -> usize {
    world.objects().held_size()
}

// Marks the objects that an object holds.
fn mark_held(world: &World, object: usize, marks: &mut Marks) -> Result<(), AllocError>
    ensures lives { OnOk result (LivesAt world.now object marks.new) }
    ensures grown { OnOk result (HasMarked marks.old marks.new) }
{
    let objects = world.objects();
    for index in 0..objects.held(object) {
        if let Some(value) = objects.value(object, index) {
            value.mark(marks)?;
        }
    }
    Ok(())
}

/// Marks all that marked objects hold, and what those hold. Whether that is all.
pub fn mark_reached(world: &World, marks: &mut Marks) -> Result<bool, AllocError>
    requires { AreMarksOf world.now marks.old }
    ensures lives { IfOk result (λ done. done ≡ true → ObjectsLive world.now marks.new) }
    ensures grown { OnOk result (Grows (marks_in marks.old) (marks_in marks.new)) }
{
    for _object in 0..world.objects().count() {
        let Some(object) = marks.next() else {
            return Ok(true);
        };
        mark_held(world, object, marks)?;
    }
    match marks.next() {
        None => Ok(true),
        Some(_) => Ok(false),
    }
}

/// Gives back the objects that have no mark.
pub fn drop_unmarked(world: &mut World, alloc: Global, marks: &Marks)
    ensures { world.new ≡ without_unmarked world.old marks.now }
{
    world.objects_mut().clear(alloc, marks);
}
