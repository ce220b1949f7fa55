//! The answers of evaluations.

ghost use Rattle.std.specs.Prelude.{◌≡◌};
ghost use Rattle.match_machine.specs.View.{answer_view, want_of};
ghost use Rattle.model.specs.Language.Conversions.{answer_of};
ghost use Rattle.model.specs.Machine.Steps.{codes_of};
ghost use Rattle.model.specs.declared.run.Stop.TheVariants.{NoMemory};
ghost use Rattle.values.specs.Answers.{answer_map, Converts, IfStopped};
ghost use Rattle.values.specs.Values.{value_of};

use match_machine::{Answer, Want};
use std::alloc::Global;
use values::{Fault, Value};

/// The answer that a value is to a match that wants a pattern, a count or bytes.
pub fn answer_of(alloc: Global, want: Want, value: &Value) -> Result<Answer, Fault>
    ensures answer { Converts (answer_map answer_view result)
        (answer_of codes_of (want_of want) (value_of value.now)) }
    ensures stop { IfStopped result (λ stop. stop ≡ NoMemory) }
{
    match want {
        Want::Pattern => Ok(Answer::Pattern(value.to_pattern(alloc)?)),
        Want::Count => match value.to_count() {
            Ok(n) => Ok(Answer::Count(n)),
            Err(code) => Err(Fault::Error(code)),
        },
        Want::Bytes => Ok(Answer::Bytes(value.to_bytes(alloc)?)),
    }
}
