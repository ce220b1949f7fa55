//! What primitives come to.

ghost use Rattle.std.specs.Prelude.{◌≡◌};
ghost use Rattle.model.specs.Machine.Steps.{MW};
ghost use Rattle.model.specs.Language.Primitives.{holds_if, returned};
ghost use Rattle.primitives.specs.Answers.{op_of};

use pattern_compiler::Name;
use strings::Text;
use values::Value;

/// What a call of a primitive comes to.
#[derive(Drop)]
pub enum Outcome {
    Value(Value),
    Name(Name),
    Failure,
    /// A call of a function that isn't primitive.
    Call(Text, Vec<Value>),
}

impl Outcome {
    // What a predicate comes to.
    pub(crate) fn holds_if(holds: bool) -> Outcome
        ensures { (w : MW) → op_of result w ≡ returned (holds_if holds w) }
    {
        if holds {
            Outcome::Value(Value::null())
        } else {
            Outcome::Failure
        }
    }
}
