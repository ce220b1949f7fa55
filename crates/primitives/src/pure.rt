//! Calls of primitives that change nothing.

ghost use Rattle.std.specs.Prelude.{◌≡◌, [], ◌∷◌, List, true};
ghost use Rattle.model.specs.Language.Calls.{arg_at};
ghost use Rattle.model.specs.Language.Io.{Io};
ghost use Rattle.model.specs.Machine.Steps.{MVal, codes_of};
ghost use Rattle.model.specs.Language.Primitives.{prim_op};
ghost use Rattle.model.specs.declared.run.Stop.TheVariants.{NoMemory};
ghost use Rattle.values.specs.Values.{value_of};
ghost use Rattle.world.specs.Held.{world_of};
ghost use Rattle.values.specs.Answers.{IfStopped};
ghost use Rattle.primitives.specs.Answers.{ComesTo};
ghost use Rattle.primitives.specs.Pure.{is_pure};

use crate::functions::{data_type, dupl, remdr, replace, size, trim};
use crate::outcome::Outcome;
use crate::patterns::{arbno, fence_of, kind};
use crate::predicates::{Comparison, compare, differ, ident, integer, lgt};
use model::PrimId;
use pattern_compiler::Kind;
use std::alloc::Global;
use values::{Fault, Value};
use world::World;

/// Whether a primitive changes nothing, and takes three arguments at most.
#[inline(always)]
pub fn is_pure(id: PrimId) -> bool
    ensures { result ≡ is_pure id }
{
    match id {
        PrimId::Item
        | PrimId::Apply
        | PrimId::Array
        | PrimId::Table
        | PrimId::Copy
        | PrimId::Convert
        | PrimId::Data
        | PrimId::Define
        | PrimId::Input
        | PrimId::Output
        | PrimId::Detach => false,
        _ => true,
    }
}

/// Calls such a primitive with its first three arguments. An absent argument is null.
pub fn call_pure(
    alloc: Global,
    id: PrimId,
    first: &Value,
    second: &Value,
    third: &Value,
    world: &World,
) -> Result<Outcome, Fault>
    requires pure { is_pure id ≡ true }
    ensures answer { (vs : List MVal) → arg_at vs 0 ≡ value_of first.now → arg_at vs 1 ≡ value_of second.now
        → arg_at vs 2 ≡ value_of third.now → (io : Io)
        → ComesTo result (world_of world.now io) (prim_op codes_of id vs (world_of world.now io)) }
    ensures stop { IfStopped result (λ stop. stop ≡ NoMemory) }
{
    call_three(alloc, id, first, second, third, world)
}

// Calls such a primitive with exactly three arguments.
#[inline(always)]
pub(crate) fn call_three(
    alloc: Global,
    id: PrimId,
    first: &Value,
    second: &Value,
    third: &Value,
    world: &World,
) -> Result<Outcome, Fault>
    requires pure { is_pure id ≡ true }
    ensures answer { (io : Io)
        → ComesTo result (world_of world.now io)
        (prim_op codes_of id (value_of first.now ∷ value_of second.now ∷ value_of third.now ∷ [])
        (world_of world.now io)) }
    ensures stop { IfStopped result (λ stop. stop ≡ NoMemory) }
{
    match id {
        PrimId::Len => kind(alloc, Kind::Len, first),
        PrimId::Pos => kind(alloc, Kind::Pos, first),
        PrimId::RPos => kind(alloc, Kind::RPos, first),
        PrimId::Tab => kind(alloc, Kind::Tab, first),
        PrimId::RTab => kind(alloc, Kind::RTab, first),
        PrimId::Any => kind(alloc, Kind::Any, first),
        PrimId::NotAny => kind(alloc, Kind::NotAny, first),
        PrimId::Span => kind(alloc, Kind::Span, first),
        PrimId::Break => kind(alloc, Kind::Break, first),
        PrimId::Arbno => arbno(alloc, first),
        PrimId::Eq => compare(Comparison::Eq, first, second),
        PrimId::Ne => compare(Comparison::Ne, first, second),
        PrimId::Lt => compare(Comparison::Lt, first, second),
        PrimId::Le => compare(Comparison::Le, first, second),
        PrimId::Gt => compare(Comparison::Gt, first, second),
        PrimId::Ge => compare(Comparison::Ge, first, second),
        PrimId::Lgt => lgt(alloc, first, second),
        PrimId::Ident => ident(first, second),
        PrimId::Differ => differ(first, second),
        PrimId::Integer => integer(first),
        PrimId::Size => size(alloc, first),
        PrimId::Trim => trim(alloc, first),
        PrimId::Dupl => dupl(alloc, first, second, world.longest()),
        PrimId::Replace => replace(alloc, first, second, third),
        PrimId::Remdr => remdr(first, second),
        PrimId::DataType => data_type(alloc, first, world),
        PrimId::Fence => fence_of(alloc, first),
        _ => unreachable!(),
    }
}
