//! Types that DATA makes: a constructor, and a function for each field.

ghost use Rattle.std.specs.Prelude.{◌≡◌, [], bytes_eq, Some, IfOk, OnOk, OnErr};
ghost use Rattle.model.specs.Deck.Trees.{Bytes};
ghost use Rattle.indexmap.specs.IndexMap.{IsUnique};
ghost use Rattle.model.specs.Language.Io.{Io};
ghost use Rattle.model.specs.Language.Values.{Str};
ghost use Rattle.model.specs.Language.Conversions.{Gives};
ghost use Rattle.model.specs.Language.Primitives.{data_op};
ghost use Rattle.values.specs.Functions.{function_at, function_of_type};
ghost use Rattle.world.specs.Held.{world_of};

use aggregates::Names;
use indexmap::IndexMap;
use prototypes::TypePrototype;
use std::alloc::{AllocError, Global};
use strings::Text;
use values::Function;
use world::World;

// The functions of a type by their names.
fn functions_of(
    alloc: Global,
    prototype: &TypePrototype,
) -> Result<IndexMap<Text, Function>, AllocError>
    ensures function { IfOk result (λ made. (x : Bytes)
        → function_at x made.entries ≡ function_of_type prototype.now.name prototype.now.fields prototype.now.fields x) }
    ensures unique { IfOk result (λ made. IsUnique bytes_eq made) }
{
    let fields = prototype.fields();
    let constructor = Function::Constructor(Names::from_slice(alloc, fields)?);
    let mut made = IndexMap::new(alloc);
    let _none = made.insert(prototype.name().clone()?, constructor)?;
    for field in fields {
        let _old = made.insert(field.clone()?, Function::Field)?;
    }
    Ok(made)
}

/// Makes a type: its name makes records with these fields, and the name of each field gives that field of a record.
pub fn data(world: &mut World, alloc: Global, prototype: &TypePrototype) -> Result<(), AllocError>
    ensures ok { OnOk result ((io : Io)
        → data_op (Some prototype.now) (world_of world.old io) ≡ Gives (Str []) (world_of world.new io)) }
    ensures err { OnErr result (world.new ≡ world.old) }
    ensures names { world.new.names ≡ world.old.names }
{
    let made = functions_of(alloc, prototype)?;
    world.append_functions(made)?;
    world.note_type(prototype);
    Ok(())
}
