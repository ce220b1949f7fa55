//! Code without operands of its own: variables, literals, keywords and calls behind their arguments.

ghost use Rattle.std.specs.Prelude.{◌≡◌, ◌<◌, ◌≤◌, ◌+◌, ◌^◌, if◌then◌else◌, OnOk};
ghost use Rattle.model.specs.Language.Names.{key_named, prim_named};
ghost use Rattle.expr_codegen.specs.Code.{with_string, with_key};
ghost use Rattle.expr_codegen.specs.Emitting.{AddsAtMost, Emits, Extends, size, most_counted};
ghost use Rattle.expr_codegen.specs.Views.{gen_of, call_of};
ghost use Rattle.model.specs.declared.instr.Instr.{Instr};

use crate::generator::Generator;
use model::{Instr, KeyId, PrimId};
use std::alloc::AllocError;

/// Puts a variable's name.
#[inline(never)]
pub fn variable(g: &mut Generator<'_>, name: &[u8]) -> Result<(), AllocError>
    requires { size (gen_of g.old) + 6 < 2 ^ 31 }
    ensures emits { OnOk result
        (Emits (with_string (λ k. Instr.Var k) name.now) (gen_of g.old) (gen_of g.new)) }
    ensures size { OnOk result (AddsAtMost 6 (gen_of g.old) (gen_of g.new)) }
    ensures extends { Extends (gen_of g.old) (gen_of g.new) }
{
    let number = g.string(name)?;
    g.put(Instr::Var(number))
}

/// Puts a literal.
#[inline(never)]
pub fn literal(g: &mut Generator<'_>, text: &[u8]) -> Result<(), AllocError>
    requires { size (gen_of g.old) + 6 < 2 ^ 31 }
    ensures emits { OnOk result
        (Emits (with_string (λ k. Instr.Str k) text.now) (gen_of g.old) (gen_of g.new)) }
    ensures size { OnOk result (AddsAtMost 6 (gen_of g.old) (gen_of g.new)) }
    ensures extends { Extends (gen_of g.old) (gen_of g.new) }
{
    let number = g.string(text)?;
    g.put(Instr::Str(number))
}

/// Puts a keyword's value.
#[inline(never)]
pub fn keyword(g: &mut Generator<'_>, name: &[u8]) -> Result<(), AllocError>
    requires { size (gen_of g.old) + 2 < 2 ^ 31 }
    ensures emits { OnOk result
        (Emits (with_key (λ k. Instr.KeyGet k) (key_named name.now)) (gen_of g.old)
        (gen_of g.new)) }
    ensures size { OnOk result (AddsAtMost 2 (gen_of g.old) (gen_of g.new)) }
    ensures extends { Extends (gen_of g.old) (gen_of g.new) }
{
    if let Some(key) = KeyId::named(name) {
        g.put(Instr::KeyGet(key))?;
    }
    Ok(())
}

// The call of a primitive, for a name or for a value.
fn primitive_call(wants_name: bool, primitive: PrimId, count: u8) -> Instr
    ensures { result ≡ (if wants_name then Instr.PrimN primitive count else Instr.PrimV primitive
        count) }
{
    if wants_name {
        Instr::PrimN(primitive, count)
    } else {
        Instr::PrimV(primitive, count)
    }
}

// The call of a function of the program's own, for a name or for a value.
fn own_call(wants_name: bool, name: u32, count: u16) -> Instr
    ensures { result ≡ (if wants_name then Instr.CallN name count else Instr.CallV name count) }
{
    if wants_name {
        Instr::CallN(name, count)
    } else {
        Instr::CallV(name, count)
    }
}

/// Puts the call of a function behind its arguments, for a name or for a value.
pub fn call(
    g: &mut Generator<'_>,
    function: &[u8],
    count: usize,
    wants_name: bool,
) -> Result<(), AllocError>
    requires few { count ≤ most_counted (prim_named function.now) }
    requires room { size (gen_of g.old) + 8 < 2 ^ 31 }
    ensures emits { OnOk result
        (Emits (call_of wants_name function.now count) (gen_of g.old) (gen_of g.new)) }
    ensures size { OnOk result (AddsAtMost 8 (gen_of g.old) (gen_of g.new)) }
    ensures extends { Extends (gen_of g.old) (gen_of g.new) }
{
    match PrimId::named(function) {
        Some(primitive) => g.put(primitive_call(wants_name, primitive, count as u8)),
        None => {
            let name = g.string(function)?;
            g.put(own_call(wants_name, name, count as u16))
        }
    }
}
