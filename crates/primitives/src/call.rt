//! Calls of primitives.

ghost use Rattle.std.specs.Prelude.{◌≡◌, [], ◌∷◌, map, IsTrue, OnErr};
ghost use Rattle.model.specs.Language.Io.{Io};
ghost use Rattle.model.specs.Machine.Steps.{codes_of};
ghost use Rattle.model.specs.Language.Primitives.{prim_op};
ghost use Rattle.model.specs.declared.run.Stop.TheVariants.{NoMemory};
ghost use Rattle.values.specs.Values.{value_of};
ghost use Rattle.world.specs.Held.{world_of};
ghost use Rattle.values.specs.Answers.{IfStopped};
ghost use Rattle.primitives.specs.Answers.{ComesTo, is_by_number};
ghost use Rattle.primitives.specs.Calling.{IsOther};

use crate::applying::{Applied, apply, copied};
use crate::defining::define;
use crate::objects::{array, convert, copy, data, item, table};
use crate::outcome::Outcome;
use crate::pure::call_three;
use crate::units::{detach, input, output};
use model::PrimId;
use std::alloc::Global;
use values::{Fault, Value, argument};
use world::World;

/// Calls a primitive. An absent argument is null. A call that gives an error or stops changes nothing.
pub fn call_prim(
    alloc: Global,
    id: PrimId,
    arguments: &[Value],
    world: &mut World,
) -> Result<Outcome, Fault>
    ensures answer { (io : Io)
        → ComesTo result (world_of world.new io)
        (prim_op codes_of id (map value_of arguments.now) (world_of world.old io)) }
    ensures stop { IfStopped result (λ stop. stop ≡ NoMemory) }
    ensures unchanged { OnErr result (world.new ≡ world.old) }
    ensures names { world.new.names ≡ world.old.names }
{
    match id {
        PrimId::Apply => call_applied(alloc, arguments, world),
        _ => call_other(alloc, id, arguments, world),
    }
}

// APPLY.
fn call_applied(alloc: Global, arguments: &[Value], world: &mut World) -> Result<Outcome, Fault>
    ensures answer { (io : Io)
        → ComesTo result (world_of world.new io)
        (prim_op codes_of PrimId.Apply (map value_of arguments.now) (world_of world.old io)) }
    ensures stop { IfStopped result (λ stop. stop ≡ NoMemory) }
    ensures unchanged { OnErr result (world.new ≡ world.old) }
    ensures names { world.new.names ≡ world.old.names }
{
    let (applied, others) = apply(alloc, world.module_level(), arguments)?;
    match applied {
        Applied::Primitive(id) => call_other(alloc, id, others, world),
        Applied::Function(name) => Ok(Outcome::Call(name, copied(alloc, others)?)),
    }
}

// Calls a primitive other than APPLY.
fn call_other(
    alloc: Global,
    id: PrimId,
    arguments: &[Value],
    world: &mut World,
) -> Result<Outcome, Fault>
    requires other { IsOther id }
    ensures answer { (io : Io)
        → ComesTo result (world_of world.new io)
        (prim_op codes_of id (map value_of arguments.now) (world_of world.old io)) }
    ensures stop { IfStopped result (λ stop. stop ≡ NoMemory) }
    ensures unchanged { OnErr result (world.new ≡ world.old) }
    ensures names { world.new.names ≡ world.old.names }
{
    match id {
        PrimId::Item => item(arguments, world),
        _ => call_by_number(alloc, id, arguments, world),
    }
}

// Calls a primitive that takes its arguments by their numbers.
fn call_by_number(
    alloc: Global,
    id: PrimId,
    arguments: &[Value],
    world: &mut World,
) -> Result<Outcome, Fault>
    requires by_number { IsTrue (is_by_number id) }
    ensures answer { (io : Io)
        → ComesTo result (world_of world.new io)
        (prim_op codes_of id (map value_of arguments.now) (world_of world.old io)) }
    ensures stop { IfStopped result (λ stop. stop ≡ NoMemory) }
    ensures unchanged { OnErr result (world.new ≡ world.old) }
    ensures names { world.new.names ≡ world.old.names }
{
    let null = Value::null();
    let first = argument(arguments, 0, &null);
    let second = argument(arguments, 1, &null);
    let third = argument(arguments, 2, &null);
    call_with(alloc, id, first, second, third, world)
}

// Calls it with its first three arguments.
fn call_with(
    alloc: Global,
    id: PrimId,
    first: &Value,
    second: &Value,
    third: &Value,
    world: &mut World,
) -> Result<Outcome, Fault>
    requires by_number { IsTrue (is_by_number id) }
    ensures answer { (io : Io)
        → ComesTo result (world_of world.new io)
        (prim_op codes_of id (value_of first.now ∷ value_of second.now ∷ value_of third.now ∷ [])
        (world_of world.old io)) }
    ensures stop { IfStopped result (λ stop. stop ≡ NoMemory) }
    ensures unchanged { OnErr result (world.new ≡ world.old) }
    ensures names { world.new.names ≡ world.old.names }
{
    match id {
        PrimId::Array => array(alloc, first, second, world),
        PrimId::Table => table(alloc, world),
        PrimId::Copy => copy(alloc, first, world),
        PrimId::Convert => convert(alloc, first, second, world),
        PrimId::Data => data(alloc, first, world),
        PrimId::Input => input(alloc, first, second, world),
        PrimId::Output => output(alloc, first, second, world),
        PrimId::Detach => detach(alloc, first, world),
        PrimId::Define => define(alloc, first, second, world),
        _ => call_three(alloc, id, first, second, third, world),
    }
}
