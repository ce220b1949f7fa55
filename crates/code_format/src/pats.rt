//! Instructions of patterns as bytes.

ghost use Rattle.std.specs.Prelude.{◌≡◌, ◌⊎◌, [], ◌++◌, OnOk, OnErr, slice_get};
ghost use Rattle.model.specs.Module.Spelling.{pat_instr};
ghost use Rattle.model.specs.Module.Reading.{Reads, pat_instr_at, pat_readers, required, ◌>>>◌};

use crate::numbers::{put_whole, put_wide, read_byte, read_u32, read_u64};
use model::{FormatRule, Miss, PatInstr};
use std::alloc::AllocError;

/// The instruction with 4 bytes that has this kind, and what is behind it.
#[tactic(auto, unfolding(model::specs::Module::Reading::pat_readers, model::specs::Module::Reading::wide, model::specs::Module::Reading::distance, model::specs::Module::Reading::number_at))]
fn wide(kind: u8, bytes: &[u8]) -> Result<(PatInstr, &[u8]), Miss>
    requires { (kind ≡ 0) ⊎ (kind ≡ 1) ⊎ (kind ≡ 2) ⊎ (kind ≡ 8) ⊎ (kind ≡ 9) ⊎ (kind ≡ 10) ⊎
        (kind ≡ 11) }
    ensures { Reads (λ x.
        (x.0, x.1.now)) result (required (slice_get pat_readers kind >>> λ r. r bytes.now)) }
{
    let (n, rest) = read_u32(bytes)?;
    match kind {
        0 => Ok((PatInstr::Lit(n), rest)),
        1 => Ok((PatInstr::Split(n.cast_signed()), rest)),
        2 => Ok((PatInstr::Jmp(n.cast_signed()), rest)),
        8 => Ok((PatInstr::Any(n), rest)),
        9 => Ok((PatInstr::NotAny(n), rest)),
        10 => Ok((PatInstr::Span(n), rest)),
        _ => Ok((PatInstr::Break(n), rest)),
    }
}

/// The instruction with 8 bytes that has this kind, and what is behind it.
#[tactic(auto, unfolding(model::specs::Module::Reading::pat_readers, model::specs::Module::Reading::long, model::specs::Module::Reading::number_at))]
fn long(kind: u8, bytes: &[u8]) -> Result<(PatInstr, &[u8]), Miss>
    requires { (kind ≡ 3) ⊎ (kind ≡ 4) ⊎ (kind ≡ 5) ⊎ (kind ≡ 6) ⊎ (kind ≡ 7) }
    ensures { Reads (λ x.
        (x.0, x.1.now)) result (required (slice_get pat_readers kind >>> λ r. r bytes.now)) }
{
    let (n, rest) = read_u64(bytes)?;
    match kind {
        3 => Ok((PatInstr::Len(n), rest)),
        4 => Ok((PatInstr::Pos(n), rest)),
        5 => Ok((PatInstr::RPos(n), rest)),
        6 => Ok((PatInstr::Tab(n), rest)),
        _ => Ok((PatInstr::RTab(n), rest)),
    }
}

/// The instruction in front, and what is behind it.
#[tactic(auto, unfolding(model::specs::Module::Reading::pat_instr_at, model::specs::Module::Reading::pat_readers))]
pub fn first_pat_instr(bytes: &[u8]) -> Result<(PatInstr, &[u8]), Miss>
    ensures { Reads (λ x. (x.0, x.1.now)) result (pat_instr_at [] bytes.now) }
{
    let (kind, rest) = read_byte(bytes)?;
    match kind {
        0 | 1 | 2 | 8 | 9 | 10 | 11 => wide(kind, rest),
        3 | 4 | 5 | 6 | 7 => long(kind, rest),
        _ => Err(Miss {
            left: bytes.len(),
            rule: FormatRule::UnknownInstruction,
        }),
    }
}

/// Puts an instruction of a pattern at the end; after a refusal the bytes are as before.
pub fn put_pat_instr(i: &PatInstr, out: &mut Vec<u8>) -> Result<(), AllocError>
    ensures ok { OnOk result (out.new.items ≡ out.old.items ++ pat_instr i.now) }
    ensures err { OnErr result (out.new.items ≡ out.old.items) }
{
    match *i {
        PatInstr::Lit(n) => put_wide(out, 0, n),
        PatInstr::Split(n) => put_wide(out, 1, n.cast_unsigned()),
        PatInstr::Jmp(n) => put_wide(out, 2, n.cast_unsigned()),
        PatInstr::Len(n) => put_whole(out, 3, n),
        PatInstr::Pos(n) => put_whole(out, 4, n),
        PatInstr::RPos(n) => put_whole(out, 5, n),
        PatInstr::Tab(n) => put_whole(out, 6, n),
        PatInstr::RTab(n) => put_whole(out, 7, n),
        PatInstr::Any(n) => put_wide(out, 8, n),
        PatInstr::NotAny(n) => put_wide(out, 9, n),
        PatInstr::Span(n) => put_wide(out, 10, n),
        PatInstr::Break(n) => put_wide(out, 11, n),
    }
}
