//! The match under way.

ghost use Rattle.std.specs.Prelude.{◌≡◌, ◌≢◌, ◌<◌, ◌≤◌, [], ◌∷◌, ℕ, List, length, true, false, None, IfOk, IfSome};
ghost use Rattle.std.specs.Prelude.{IfErr, IsErr, OnOk, OnErr, if◌then◌else◌};
ghost use Rattle.frames.specs.View.{operands_of};
ghost use Rattle.frames.specs.Matches.{IsAnsweredOften, in_match, matching_of};
ghost use Rattle.match_machine.specs.Held.{IsQuestion};
ghost use Rattle.match_machine.specs.View.{event_is, answer_view, want_of};
ghost use Rattle.model.specs.Language.Conversions.{answer_of};
ghost use Rattle.model.specs.Pattern.Patterns.{Running};
ghost use Rattle.model.specs.Pattern.Steps.{Starting, Over, Lost, event_of, with_more};
ghost use Rattle.model.specs.Machine.Steps as m;
ghost use Rattle.model.specs.Machine.Steps.{Module, Frame, MW, codes_of, found_as, on_event, steps};
ghost use Rattle.model.specs.declared.run.Stop.TheVariants.{NoMemory};
ghost use Rattle.values.specs.Answers.{answer_map, Converts, IfStopped};
ghost use Rattle.values.specs.Values.{value_of};

use crate::answering::answer_of;
use crate::literal::Literal;
use crate::operand::Operand;
use crate::stack::Stack;
use match_machine::{Answer, Event, Matcher, Want};
use pattern_compiler::PatCode;
use std::alloc::{AllocError, Global};
use std::marker::Model;
use strings::Text;
use values::{Fault, Span, Value};

// What a match under way holds.
#[derive(Drop)]
struct Held {
    matcher: Matcher,
    // Where a match that succeeds goes on.
    place: usize,
    // Whether a match that succeeds leaves what it matched for a replacement.
    keep: bool,
    // The literal that it was last answered.
    literal: Literal,
}

/// A match under way, which the operands and the handlers of its statement wait for where they are. What it holds stays
/// where it is in memory, so moving a match costs little.
pub struct Matching {
    held: Box<Held>,
}

impl Drop for Matching {
    fn drop(self) {
        let Matching { held: _ } = self;
    }
}

impl Model for Matching {
    ghost use Rattle.frames.specs.Matches.{Match};

    ghost Value = { Match };

    ghost view = { λ g. record {
      search = g.held.value.matcher;
      place = g.held.value.place;
      keep = g.held.value.keep;
    } };
}

impl Matching {
    /// A match before its first step, with memory of its own. `place` is where it goes on if it succeeds, and `keep`
    /// whether it then leaves what it matched.
    #[cold]
    #[inline(never)]
    pub fn start(
        alloc: Global,
        code: PatCode,
        subject: Text,
        anchored: bool,
        place: usize,
        keep: bool,
    ) -> Result<Matching, AllocError>
        ensures { IfOk result (λ g. g ≡ record {
          search = record {
            subject = subject;
            code = code;
            state = Starting 0 (if anchored then 0 else length subject) [];
            refused = false;
          };
          place = place;
          keep = keep;
        }) }
    {
        let held = Held {
            matcher: Matcher::start(alloc, code, subject, anchored),
            place,
            keep,
            literal: Literal::null(),
        };
        Ok(Matching {
            held: Box::new(alloc, held)?,
        })
    }

    /// Another match before its first step, as by `start`, with the memory of this one. Takes no memory.
    #[inline(always)]
    pub fn restart(
        &mut self,
        code: PatCode,
        subject: Text,
        anchored: bool,
        place: usize,
        keep: bool,
    )
        ensures { self.new ≡ record {
          search = record {
            subject = subject;
            code = code;
            state = Starting 0 (if anchored then 0 else length subject) [];
            refused = false;
          };
          place = place;
          keep = keep;
        } }
    {
        let held = &mut *self.held;
        held.matcher.restart(code, subject, anchored);
        held.place = place;
        held.keep = keep;
    }

    /// The match is over, and lets go of what it held. Its memory stays for another match.
    #[inline(never)]
    pub fn let_go(&mut self)
        ensures { self.new ≡ record self.old {
          search = record {
            subject = [];
            code = [];
            state = Over Lost;
            refused = false;
          };
        } }
    {
        let held = &mut *self.held;
        held.literal = Literal::null();
        held.matcher.let_go();
    }

    // Ends the match and lets go of what it held, but for its subject, which it returns.
    fn finish(&mut self) -> Text
        ensures subject { result ≡ self.old.search.subject }
        ensures over { self.new ≡ record self.old {
          search = record {
            subject = [];
            code = [];
            state = Over Lost;
            refused = false;
          };
        } }
    {
        let held = &mut *self.held;
        held.literal = Literal::null();
        held.matcher.finish()
    }

    /// Where it goes on if it succeeds.
    pub fn place(&self) -> usize
        ensures { result ≡ self.now.place }
    {
        self.held.place
    }

    /// At least one step and at most so many, and fewer only up to an event; how many. The machine makes as many, and
    /// goes on from the last by that event.
    pub fn go_on(&mut self, bound: u64) -> Result<u64, AllocError>
        requires running { event_of self.old.search.state ≡ Running }
        requires bound { 0 < bound }
        ensures count { IfOk result (λ n. (0 < n) × (n ≤ bound)) }
        ensures fewer { IfOk result (λ n. n < bound → event_of self.new.search.state ≢ Running) }
        ensures steps { IfOk result (λ n. (img : Module) (o : ℕ → ℕ) (ops : List m.Operand)
            (hs : List m.Handler) (fs : List Frame) (w : MW) →
            steps img n (in_match o self.old ops hs fs w)
            ≡ on_event img (event_of self.new.search.state)
            (matching_of o self.old ops hs) self.new.search.state fs w) }
        ensures same { OnOk result
            (self.new ≡ record self.old {
              search = record self.old.search {
                state =
                    self.new.search.state;
              };
            }) }
        ensures refused { IfErr result (λ _.
            self.new ≡ record self.old {
              search = record self.old.search {
                state = Over Lost;
                refused = true;
              };
            }) }
        ensures stays { self.old.search.refused ≡ true → IsErr result }
    {
        let count = self.held.matcher.go_on(bound)?;
        Ok(count)
    }

    /// What the match has come to. Takes no memory.
    #[inline(always)]
    pub fn event(&self) -> Event<'_>
        ensures { event_is result ≡ event_of self.now.search.state }
    {
        self.held.matcher.event()
    }

    /// The answer that a value is to a match that wants a pattern, a count or bytes. A string that is given again takes
    /// no memory.
    pub fn answer(&mut self, alloc: Global, want: Want, value: &Value) -> Result<Answer, Fault>
        ensures answer { Converts (answer_map answer_view result)
            (answer_of codes_of (want_of want) (value_of value.now)) }
        ensures stop { IfStopped result (λ stop. stop ≡ NoMemory) }
        ensures same { self.new ≡ self.old }
    {
        if let Want::Pattern = want {
            if let Value::String(text) = value {
                return Ok(Answer::Pattern(self.held.literal.code_of(alloc, text)?));
            }
        }
        answer_of(alloc, want, value)
    }

    /// The answer to the question that was the last event, with which the match goes on. Takes no memory.
    #[inline(always)]
    pub fn supply(&mut self, answer: Answer)
        requires { IsQuestion (event_of self.old.search.state) }
        ensures state { self.new
            ≡ record self.old {
              search = record self.old.search {
                state = with_more
                    (answer_view answer ∷ []) self.old.search.state;
              };
            } }
        ensures running { event_of self.new.search.state ≡ Running }
    {
        self.held.matcher.supply(answer)
    }

    /// Answers the question that was the last event, and as often as it comes again, at most so many times more: where
    /// it is for a pattern at the ends of an ARB, and the answer is a literal that doesn't stand there. How many times
    /// more; None where that isn't so, and then nothing is answered. Where each answer takes so many steps of the
    /// machine, it makes those, two to the end of each match of the literal, and two between it and the next question.
    #[inline(always)]
    pub fn answer_again(
        &mut self,
        answer: &Answer,
        most: usize,
    ) -> Result<Option<usize>, AllocError>
        ensures answered { IfOk result (λ o. IfSome o (λ n.
            IsAnsweredOften (answer_view answer.now) n self.old self.new)) }
        ensures most { IfOk result (λ o. IfSome o (λ n. n ≤ most)) }
        ensures running { IfOk result (λ o. IfSome o (λ n. event_of self.new.search.state ≡ Running)) }
        ensures same { OnOk result
            (self.new ≡ record self.old {
              search = record self.old.search {
                state =
                    self.new.search.state;
              };
            }) }
        ensures none { IfOk result (λ o. o ≡ None → self.new ≡ self.old) }
    {
        let Some(count) = self.held.matcher.answer_again(answer, most)? else {
            return Ok(None);
        };
        Ok(Some(count))
    }

    /// The match succeeded between two places: leaves what it matched, if it has to, and is over.
    pub fn found(
        &mut self,
        operands: &mut Stack<Operand>,
        start: usize,
        end: usize,
    ) -> Result<(), AllocError>
        ensures ok { OnOk result
            (operands_of operands.new.top
            ≡ found_as self.old.keep self.old.search.subject start end (operands_of operands.old.top)) }
        ensures under { operands.new.under ≡ operands.old.under }
        ensures err { OnErr result (operands.new ≡ operands.old) }
    {
        if !self.held.keep {
            self.let_go();
            return Ok(());
        }
        let subject = self.finish();
        operands.push(Operand::Span(Span {
            subject,
            start,
            end,
        }))
    }
}
