//! The moves of a match.

ghost use Rattle.std.specs.Prelude.{◌≡◌, ◌+◌, ◌<◌, ◌≤◌, ◌^◌, ℕ, List, length, IfOk, OnOk};
ghost use Rattle.model.specs.Pattern.Steps.{onward as onward_of};
ghost use Rattle.model.specs.Pattern.Ends.{between as between_of};
ghost use Rattle.pattern_compiler.specs.View.{name_of};
ghost use Rattle.match_machine.specs.Moved.{Becomes, stayed};
ghost use Rattle.match_machine.specs.View.{thread_of, state_of, gone, failed};

use crate::state::{Mode, Run, Thread};
use pattern_compiler::Name;
use std::alloc::AllocError;
use strings::Text;

/// The place after the attempt's instruction.
#[inline(always)]
pub fn next_place(thread: &Thread) -> usize
    requires { thread.now.place < length thread.now.trail.code }
    ensures { result ≡ thread.now.place + 1 }
{
    if thread.place < thread.trail.code().len() {
        thread.place + 1
    } else {
        thread.place
    }
}

/// The attempt on at a place and a cursor: at the end of an entered pattern's code, on where it was left.
#[inline(always)]
pub fn move_on(thread: &mut Thread, place: usize, cursor: usize) -> Result<(), AllocError>
    ensures thread { OnOk result
        (thread_of thread.new ≡ onward_of (thread_of thread.old) place cursor) }
    ensures choices { OnOk result (thread.new.trail.backs ≡ thread.old.trail.backs) }
{
    thread.place = place;
    thread.cursor = cursor;
    while thread.place >= thread.trail.code().len() {
        let Some(place) = thread.trail.leave()? else {
            return Ok(());
        };
        thread.place = place;
    }
    Ok(())
}

/// On where the attempt stands already.
#[inline(always)]
pub fn stay(run: &mut Run)
    ensures { Becomes run.new (λ u. stayed u run.old) }
{
    run.mode = if run.thread.place < run.thread.trail.code().len() {
        Mode::Going
    } else {
        Mode::Matched
    };
}

/// On at a place and a cursor, where the match may end, and entered patterns may have to be left. Apart, so that the
/// other way is short.
#[inline(never)]
fn onward_out(run: &mut Run, place: usize, cursor: usize) -> Result<(), AllocError>
    ensures state { OnOk result ((u : List ℕ) → state_of u run.new ≡ gone u run.old place cursor) }
{
    move_on(&mut run.thread, place, cursor)?;
    stay(run);
    Ok(())
}

/// On at a place and a cursor.
#[inline(always)]
pub fn onward(run: &mut Run, place: usize, cursor: usize) -> Result<(), AllocError>
    ensures state { OnOk result ((u : List ℕ) → state_of u run.new ≡ gone u run.old place cursor) }
{
    if place < run.thread.trail.code().len() {
        run.thread.place = place;
        run.thread.cursor = cursor;
        run.mode = Mode::Going;
        Ok(())
    } else {
        onward_out(run, place, cursor)
    }
}

/// Back to the newest choice, to the next start, or to the end of the match.
#[inline(always)]
pub fn fail(run: &mut Run)
    requires { run.old.start + run.old.left < 2 ^ 64 }
    ensures state { (u : List ℕ) → state_of u run.new ≡ failed u run.old }
{
    if run.thread.trail.is_last() {
        if run.left > 0 {
            run.start += 1;
            run.left -= 1;
            run.mode = Mode::Starting;
        } else {
            run.mode = Mode::Failed;
        }
    } else {
        run.mode = Mode::Returning;
    }
}

/// The text between two places.
#[inline(always)]
pub fn between(subject: &Text, from: usize, to: usize) -> Result<Text, AllocError>
    requires { to ≤ length subject.now }
    ensures { IfOk result (λ text. text ≡ between_of subject.now from to) }
{
    if from < to {
        match subject.sub(from, to) {
            Ok(text) => Ok(text),
            Err(_) => Err(AllocError),
        }
    } else {
        Ok(Text::null())
    }
}

/// A copy of a name. A variable is the most usual.
#[inline(always)]
pub fn copy_of(name: &Name) -> Result<Name, AllocError>
    ensures { IfOk result (λ copy. name_of copy ≡ name_of name.now) }
{
    match name {
        Name::Variable(text) => Ok(Name::Variable(text.clone()?)),
        _ => name.clone(),
    }
}
