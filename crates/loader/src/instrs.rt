//! The instructions of the code.

ghost use Rattle.std.specs.Prelude.{◌≡◌, ◌<◌, ◌+◌, ◌^◌, ◌==◌, ◌&&◌, map, nat_lt};
ghost use Rattle.std.specs.List.{list_any};
ghost use Rattle.model.specs.Module.Flow.{is_fetched};
ghost use Rattle.model.specs.Module.Images.{fetch_from, code_size};
ghost use Rattle.model.specs.Module.Spelling.{IsImage, IsTable, StatementFits, most_code};
ghost use Rattle.model.specs.Module.WellFormed.{begins_last, indices_fit, instr_rule};
ghost use Rattle.model.specs.Module.WellFormed.{is_end_instr, is_last_instr, place_fits};
ghost use Rattle.loader.specs.Parts.{code_fault};
ghost use Rattle.loader.specs.Places.{place_of};

use crate::code::PlacedCode;
use crate::decoding::{is_at, next_place};
use crate::names::{is_name, is_statement, is_string};
use model::{Instr, ModuleFault, ModuleRule};
use module_format::ImageView;

// Whether an instruction's numbers are there and allowed.
fn indices_fit(image: &ImageView<'_>, instr: Instr) -> bool
    ensures { result ≡ indices_fit image.now instr }
{
    match instr {
        Instr::Goto(k) => is_statement(image, k),
        Instr::Str(k) => is_string(image, k),
        Instr::Var(k) | Instr::CallV(k, _) | Instr::CallN(k, _) => is_name(image, k),
        Instr::KeySet(k) => !k.is_protected(),
        Instr::Expr(k) => (k as usize) < image.expressions().len(),
        Instr::PrimV(p, n) | Instr::PrimN(p, n) => n as usize <= p.most_arguments(),
        Instr::Pat(k) => (k as usize) < image.patterns().len(),
        _ => true,
    }
}

// Whether a statement begins at an offset, by binary search.
fn has_statement(statements: &[u32], at: u32) -> bool
    requires { IsTable StatementFits statements.now }
    ensures { result ≡ list_any (λ o. o == at) statements.now }
{
    statements.binary_search(&at).is_ok()
}

// The same, where the next statement is looked at first.
fn has_statement_near(statements: &[u32], next: usize, at: u32) -> bool
    requires { IsTable StatementFits statements.now }
    ensures { result ≡ list_any (λ o. o == at) statements.now }
{
    is_at(statements, next, at) || has_statement(statements, at)
}

// Where a walk over the code has come.
#[derive(Clone, Copy)]
struct Here {
    at: u32,
    next: u32,
    /// How many instructions are before, and how many BEGINs: other offsets are looked for from there on.
    place: usize,
    begun: usize,
}

// Whether an instruction begins at an offset, where the next statement, one of those that lead to these places, is
// looked at before others.
fn begins(image: &ImageView<'_>, placed: &PlacedCode, places: &[u32], here: Here, at: u32) -> bool
    requires placed { placed.now ≡ image.now.code }
    requires places { places.now ≡ map (place_of image.now) image.now.statements }
    ensures { result ≡ is_fetched (fetch_from 0 placed.now at) }
{
    match next_place(image, places, here.begun.saturating_add(1), at) {
        Some(place) => placed.begins_at(place, at),
        None => placed.begins(here.place, at),
    }
}

// Whether an offset is one that an instruction may lead to.
fn is_target(
    image: &ImageView<'_>,
    placed: &PlacedCode,
    places: &[u32],
    here: Here,
    target: u32,
) -> bool
    requires placed { placed.now ≡ image.now.code }
    requires places { places.now ≡ map (place_of image.now) image.now.statements }
    ensures { result ≡ (nat_lt here.at target && is_fetched (fetch_from 0 placed.now target)) }
{
    here.at < target && begins(image, placed, places, here, target)
}

// Whether an instruction's targets and its own place are as they must be.
fn place_fits(
    image: &ImageView<'_>,
    placed: &PlacedCode,
    places: &[u32],
    here: Here,
    instr: Instr,
) -> bool
    requires spelt { IsImage image.now }
    requires placed { placed.now ≡ image.now.code }
    requires places { places.now ≡ map (place_of image.now) image.now.statements }
    ensures { result ≡ place_fits image.now here.at instr }
{
    match instr {
        Instr::Begin(target) => {
            is_target(image, placed, places, here, target)
                && has_statement_near(image.statements(), here.begun, here.at)
        }
        Instr::Try(target) => is_target(image, placed, places, here, target),
        _ => true,
    }
}

// Whether an instruction may stand last.
fn is_last_instr(instr: Instr) -> bool
    ensures { result ≡ is_last_instr instr }
{
    matches!(
        instr,
        Instr::End
            | Instr::Goto(_)
            | Instr::Return(_)
            | Instr::GotoV
            | Instr::NoLabel
            | Instr::Fail
            | Instr::Ret
    )
}

// Whether the last statement begins at an offset.
fn begins_last(image: &ImageView<'_>, at: u32) -> bool
    ensures { result ≡ begins_last image.now at }
{
    match image.statements().last() {
        Some(last) => *last == at,
        None => false,
    }
}

// The rule that the instruction at an offset breaks, in code of so many bytes.
fn instr_rule(
    image: &ImageView<'_>,
    placed: &PlacedCode,
    places: &[u32],
    here: Here,
    size: u32,
    instr: Instr,
) -> Option<ModuleRule>
    requires spelt { IsImage image.now }
    requires placed { placed.now ≡ image.now.code }
    requires places { places.now ≡ map (place_of image.now) image.now.statements }
    requires size { size ≡ code_size image.now.code }
    ensures { result ≡ instr_rule image.now here.at here.next instr }
{
    if !indices_fit(image, instr) {
        return Some(ModuleRule::BadIndex);
    }
    let goes_on = here.next != size || is_last_instr(instr);
    if !place_fits(image, placed, places, here, instr) || !goes_on {
        return Some(ModuleRule::BadTarget);
    }
    if begins_last(image, here.at) && !matches!(instr, Instr::End) {
        return Some(ModuleRule::NoEnd);
    }
    None
}

// 1 for BEGIN, and 0 for another instruction.
fn begin_count(instr: Instr) -> usize {
    match instr {
        Instr::Begin(_) => 1,
        _ => 0,
    }
}

/// The first fault of the instructions of the code, which begins at a place, and whose statements lead to these places.
pub(crate) fn code_fault(
    image: &ImageView<'_>,
    placed: &PlacedCode,
    places: &[u32],
    place: usize,
) -> Option<ModuleFault>
    requires spelt { IsImage image.now }
    requires placed { placed.now ≡ image.now.code }
    requires places { places.now ≡ map (place_of image.now) image.now.statements }
    requires there { place + most_code < 2 ^ 60 }
    ensures { result ≡ code_fault place image.now }
{
    let size = placed.bytes();
    let mut at = 0;
    let mut before = 0;
    let mut begun = 0;
    for instr in placed.instrs() {
        let next = at + instr.size();
        let here = Here {
            at,
            next,
            place: before,
            begun,
        };
        if let Some(rule) = instr_rule(image, placed, places, here, size, instr) {
            return Some(ModuleFault {
                offset: place + at as usize,
                rule,
            });
        }
        at = next;
        before = before.saturating_add(1);
        begun = begun.saturating_add(begin_count(instr));
    }
    None
}
