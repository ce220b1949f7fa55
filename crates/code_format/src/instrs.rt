//! Instructions as bytes.

ghost use Rattle.std.specs.Prelude.{◌≡◌, ◌⊎◌, [], ◌∷◌, ◌++◌, OnOk, OnErr, slice_get};
ghost use Rattle.model.specs.Module.Spelling.{instr, u16 as u16_bytes, u32 as u32_bytes};
ghost use Rattle.model.specs.Module.Reading.{Finds, instr_of, readers, ◌>>>◌};

use crate::codes::{ARITH_OPS, RETURN_KINDS, SIGN_OPS, coded};
use crate::numbers::{first_byte, first_u16, first_u32, first_u64, put_whole, put_wide};
use byteorder::{BigEndian, ByteOrder};
use model::{Instr, KeyId, PrimId};
use std::alloc::AllocError;

/// The instruction with a number of 4 bytes that has this code, and what is behind it.
#[tactic(auto, unfolding(model::specs::Module::Reading::readers, model::specs::Module::Reading::wide))]
fn wide(code: u8, bytes: &[u8]) -> Option<(Instr, &[u8])>
    requires { (code ≡ 1) ⊎ (code ≡ 3) ⊎ (code ≡ 7) ⊎ (code ≡ 10) ⊎ (code ≡ 18) ⊎ (code ≡ 24) ⊎
        (code ≡ 34) }
    ensures { Finds (λ x. (x.0, x.1.now)) result (slice_get readers code >>> λ r. r bytes.now) }
{
    let (n, rest) = first_u32(bytes)?;
    match code {
        1 => Some((Instr::Begin(n), rest)),
        3 => Some((Instr::Goto(n), rest)),
        7 => Some((Instr::Str(n), rest)),
        10 => Some((Instr::Var(n), rest)),
        18 => Some((Instr::Expr(n), rest)),
        24 => Some((Instr::Try(n), rest)),
        _ => Some((Instr::Pat(n), rest)),
    }
}

/// The instruction with a choice that has this code, and what is behind it.
#[tactic(auto, unfolding(model::specs::Module::Reading::readers, model::specs::Module::Reading::choice))]
fn choice(code: u8, bytes: &[u8]) -> Option<(Instr, &[u8])>
    requires { (code ≡ 4) ⊎ (code ≡ 12) ⊎ (code ≡ 13) ⊎ (code ≡ 27) ⊎ (code ≡ 28) }
    ensures { Finds (λ x. (x.0, x.1.now)) result (slice_get readers code >>> λ r. r bytes.now) }
{
    let (x, rest) = first_byte(bytes)?;
    match code {
        4 => Some((Instr::Return(coded(&RETURN_KINDS, x)?), rest)),
        12 => Some((Instr::KeyGet(coded(&KeyId::ALL, x)?), rest)),
        13 => Some((Instr::KeySet(coded(&KeyId::ALL, x)?), rest)),
        27 => Some((Instr::Sign(coded(&SIGN_OPS, x)?), rest)),
        _ => Some((Instr::Arith(coded(&ARITH_OPS, x)?), rest)),
    }
}

/// The call that has this code, and what is behind it.
#[tactic(auto, unfolding(model::specs::Module::Reading::readers, model::specs::Module::Reading::call_operands))]
fn call(code: u8, bytes: &[u8]) -> Option<(Instr, &[u8])>
    requires { (code ≡ 19) ⊎ (code ≡ 20) }
    ensures { Finds (λ x. (x.0, x.1.now)) result (slice_get readers code >>> λ r. r bytes.now) }
{
    let (name, rest) = first_u32(bytes)?;
    let (n, rest) = first_u16(rest)?;
    match code {
        19 => Some((Instr::CallV(name, n), rest)),
        _ => Some((Instr::CallN(name, n), rest)),
    }
}

/// The call of a primitive that has this code, and what is behind it.
#[tactic(auto, unfolding(model::specs::Module::Reading::readers, model::specs::Module::Reading::prim))]
fn prim(code: u8, bytes: &[u8]) -> Option<(Instr, &[u8])>
    requires { (code ≡ 21) ⊎ (code ≡ 22) }
    ensures { Finds (λ x. (x.0, x.1.now)) result (slice_get readers code >>> λ r. r bytes.now) }
{
    let (p, rest) = first_byte(bytes)?;
    let p = coded(&PrimId::ALL, p)?;
    let (n, rest) = first_byte(rest)?;
    match code {
        21 => Some((Instr::PrimV(p, n), rest)),
        _ => Some((Instr::PrimN(p, n), rest)),
    }
}

/// The instruction in front, and what is behind it; none if it is in no table or is cut.
#[inline(always)]
#[tactic(auto, unfolding(model::specs::Module::Reading::instr_of, model::specs::Module::Reading::readers, model::specs::Module::Reading::alone, model::specs::Module::Reading::short, model::specs::Module::Reading::whole_number))]
pub fn first_instr(bytes: &[u8]) -> Option<(Instr, &[u8])>
    ensures { Finds (λ x. (x.0, x.1.now)) result (instr_of bytes.now) }
{
    let (code, rest) = first_byte(bytes)?;
    match code {
        0 => Some((Instr::End, rest)),
        2 => Some((Instr::Body, rest)),
        5 => Some((Instr::GotoV, rest)),
        6 => Some((Instr::NoLabel, rest)),
        9 => Some((Instr::Null, rest)),
        11 => Some((Instr::Fetch, rest)),
        14 => Some((Instr::Indir, rest)),
        16 => Some((Instr::Assign, rest)),
        17 => Some((Instr::NameV, rest)),
        23 => Some((Instr::Drop, rest)),
        25 => Some((Instr::Untry, rest)),
        26 => Some((Instr::Fail, rest)),
        29 => Some((Instr::Cat, rest)),
        30 => Some((Instr::Alt, rest)),
        31 => Some((Instr::Cond, rest)),
        32 => Some((Instr::Imm, rest)),
        33 => Some((Instr::Cursor, rest)),
        35 => Some((Instr::FetchK, rest)),
        36 => Some((Instr::Match, rest)),
        37 => Some((Instr::MatchR, rest)),
        38 => Some((Instr::Splice, rest)),
        39 => Some((Instr::Ret, rest)),
        8 => {
            let (n, rest) = first_u64(rest)?;
            Some((Instr::Int(n.cast_signed()), rest))
        }
        15 => {
            let (n, rest) = first_u16(rest)?;
            Some((Instr::Elem(n), rest))
        }
        1 | 3 | 7 | 10 | 18 | 24 | 34 => wide(code, rest),
        4 | 12 | 13 | 27 | 28 => choice(code, rest),
        19 | 20 => call(code, rest),
        21 | 22 => prim(code, rest),
        _ => None,
    }
}

fn put_byte(out: &mut Vec<u8>, code: u8) -> Result<(), AllocError>
    ensures ok { OnOk result (out.new.items ≡ out.old.items ++ code ∷ []) }
    ensures err { OnErr result (out.new.items ≡ out.old.items) }
{
    out.extend_from_slice(&[code])
}

fn put_choice(out: &mut Vec<u8>, code: u8, x: u8) -> Result<(), AllocError>
    ensures ok { OnOk result (out.new.items ≡ out.old.items ++ code ∷ x ∷ []) }
    ensures err { OnErr result (out.new.items ≡ out.old.items) }
{
    out.extend_from_slice(&[code, x])
}

fn put_prim(out: &mut Vec<u8>, code: u8, prim: u8, n: u8) -> Result<(), AllocError>
    ensures ok { OnOk result (out.new.items ≡ out.old.items ++ code ∷ prim ∷ n ∷ []) }
    ensures err { OnErr result (out.new.items ≡ out.old.items) }
{
    out.extend_from_slice(&[code, prim, n])
}

#[tactic(auto, unfolding(model::specs::Module::Spelling::u16))]
fn put_short(out: &mut Vec<u8>, code: u8, n: u16) -> Result<(), AllocError>
    ensures ok { OnOk result (out.new.items ≡ out.old.items ++ code ∷ u16_bytes n) }
    ensures err { OnErr result (out.new.items ≡ out.old.items) }
{
    let mut bytes = [code, 0, 0];
    BigEndian::write_u16(&mut bytes[1..], n);
    out.extend_from_slice(&bytes)
}

#[tactic(auto, unfolding(model::specs::Module::Spelling::u16, model::specs::Module::Spelling::u32))]
fn put_call(out: &mut Vec<u8>, code: u8, string: u32, n: u16) -> Result<(), AllocError>
    ensures ok { OnOk result
        (out.new.items ≡ out.old.items ++ code ∷ (u32_bytes string ++ u16_bytes n)) }
    ensures err { OnErr result (out.new.items ≡ out.old.items) }
{
    let mut bytes = [code, 0, 0, 0, 0, 0, 0];
    BigEndian::write_u32(&mut bytes[1..], string);
    BigEndian::write_u16(&mut bytes[5..], n);
    out.extend_from_slice(&bytes)
}

/// Puts an instruction at the end; after a refusal the bytes are as before.
pub fn put_instr(i: &Instr, out: &mut Vec<u8>) -> Result<(), AllocError>
    ensures ok { OnOk result (out.new.items ≡ out.old.items ++ instr i.now) }
    ensures err { OnErr result (out.new.items ≡ out.old.items) }
{
    match *i {
        Instr::End => put_byte(out, 0),
        Instr::Begin(n) => put_wide(out, 1, n),
        Instr::Body => put_byte(out, 2),
        Instr::Goto(n) => put_wide(out, 3, n),
        Instr::Return(x) => put_choice(out, 4, x as u8),
        Instr::GotoV => put_byte(out, 5),
        Instr::NoLabel => put_byte(out, 6),
        Instr::Str(n) => put_wide(out, 7, n),
        Instr::Int(z) => put_whole(out, 8, z.cast_unsigned()),
        Instr::Null => put_byte(out, 9),
        Instr::Var(n) => put_wide(out, 10, n),
        Instr::Fetch => put_byte(out, 11),
        Instr::KeyGet(x) => put_choice(out, 12, x as u8),
        Instr::KeySet(x) => put_choice(out, 13, x as u8),
        Instr::Indir => put_byte(out, 14),
        Instr::Elem(n) => put_short(out, 15, n),
        Instr::Assign => put_byte(out, 16),
        Instr::NameV => put_byte(out, 17),
        Instr::Expr(n) => put_wide(out, 18, n),
        Instr::CallV(s, n) => put_call(out, 19, s, n),
        Instr::CallN(s, n) => put_call(out, 20, s, n),
        Instr::PrimV(p, n) => put_prim(out, 21, p as u8, n),
        Instr::PrimN(p, n) => put_prim(out, 22, p as u8, n),
        Instr::Drop => put_byte(out, 23),
        Instr::Try(n) => put_wide(out, 24, n),
        Instr::Untry => put_byte(out, 25),
        Instr::Fail => put_byte(out, 26),
        Instr::Sign(x) => put_choice(out, 27, x as u8),
        Instr::Arith(x) => put_choice(out, 28, x as u8),
        Instr::Cat => put_byte(out, 29),
        Instr::Alt => put_byte(out, 30),
        Instr::Cond => put_byte(out, 31),
        Instr::Imm => put_byte(out, 32),
        Instr::Cursor => put_byte(out, 33),
        Instr::Pat(n) => put_wide(out, 34, n),
        Instr::FetchK => put_byte(out, 35),
        Instr::Match => put_byte(out, 36),
        Instr::MatchR => put_byte(out, 37),
        Instr::Splice => put_byte(out, 38),
        Instr::Ret => put_byte(out, 39),
    }
}
