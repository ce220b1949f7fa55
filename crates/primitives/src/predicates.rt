//! The primitives that hold or fail.

ghost use Rattle.std.specs.Prelude.{◌≡◌, List, IfSome, Ok, not, true};
ghost use Rattle.model.specs.Language.Conversions.{Got, to_integer};
ghost use Rattle.model.specs.Machine.Steps.{MVal, MW, codes_of};
ghost use Rattle.model.specs.Language.Calls.{arg_at};
ghost use Rattle.model.specs.Language.Values.{Int};
ghost use Rattle.model.specs.Language.Primitives.{prim_op, returned, compare_op, lgt_op, same_op, same_value};
ghost use Rattle.model.specs.Language.Primitives.{same_name, is_integer, holds_if, comes_after};
ghost use Rattle.model.specs.declared.run.Stop.TheVariants.{NoMemory};
ghost use Rattle.pattern_compiler.specs.View.{name_of};
ghost use Rattle.values.specs.Values.{value_of};
ghost use Rattle.values.specs.Answers.{IfStopped};
ghost use Rattle.primitives.specs.Answers.{AnswersAs, ComesTo, SameOr, is_test, test_of, tested};

use crate::outcome::Outcome;
use model::{ErrorCode, PrimId};
use pattern_compiler::Name;
use std::alloc::Global;
use values::{Fault, Value};

/// A comparison of integers.
#[derive(Clone, Copy)]
pub(crate) enum Comparison {
    Eq,
    Ne,
    Lt,
    Le,
    Gt,
    Ge,
}

impl Comparison {
    #[inline(always)]
    fn holds(self, i: i64, j: i64) -> bool
        ensures { result ≡ test_of self i j }
    {
        match self {
            Comparison::Eq => i == j,
            Comparison::Ne => i != j,
            Comparison::Lt => i < j,
            Comparison::Le => i <= j,
            Comparison::Gt => i > j,
            Comparison::Ge => i >= j,
        }
    }
}

/// Whether a primitive says something of two values and takes no memory for it.
pub fn is_test(id: PrimId) -> bool
    ensures { result ≡ is_test id }
{
    matches!(
        id,
        PrimId::Eq
            | PrimId::Ne
            | PrimId::Lt
            | PrimId::Le
            | PrimId::Gt
            | PrimId::Ge
            | PrimId::Ident
            | PrimId::Differ
    )
}

/// Whether such a primitive holds of two values, which are its arguments. An absent argument is null.
#[inline(always)]
pub fn holds(id: PrimId, first: &Value, second: &Value) -> Result<bool, ErrorCode>
    requires { is_test id ≡ true }
    ensures { (vs : List MVal) (w : MW) → arg_at vs 0 ≡ value_of first.now → arg_at vs 1 ≡ value_of second.now
        → prim_op codes_of id vs w ≡ tested result w }
{
    match id {
        PrimId::Eq => compares(Comparison::Eq, first, second),
        PrimId::Ne => compares(Comparison::Ne, first, second),
        PrimId::Lt => compares(Comparison::Lt, first, second),
        PrimId::Le => compares(Comparison::Le, first, second),
        PrimId::Gt => compares(Comparison::Gt, first, second),
        PrimId::Ge => compares(Comparison::Ge, first, second),
        PrimId::Ident => same(first, second),
        PrimId::Differ => Ok(!same(first, second)?),
        _ => unreachable!(),
    }
}

/// Whether a comparison holds of two values that convert to these integers; what isn't a comparison is `None`.
#[inline(always)]
pub fn integers_compare(id: PrimId, first: i64, second: i64) -> Option<bool>
    ensures { IfSome result (λ answer. (vs : List MVal) (w : MW) → to_integer (arg_at vs 0) ≡ Got first
        → to_integer (arg_at vs 1) ≡ Got second → prim_op codes_of id vs w ≡ tested (Ok answer) w) }
{
    if first < second {
        return match id {
            PrimId::Ne | PrimId::Lt | PrimId::Le => Some(true),
            PrimId::Eq | PrimId::Gt | PrimId::Ge => Some(false),
            _ => None,
        };
    }
    if second < first {
        return match id {
            PrimId::Ne | PrimId::Gt | PrimId::Ge => Some(true),
            PrimId::Eq | PrimId::Lt | PrimId::Le => Some(false),
            _ => None,
        };
    }
    match id {
        PrimId::Eq | PrimId::Le | PrimId::Ge => Some(true),
        PrimId::Ne | PrimId::Lt | PrimId::Gt => Some(false),
        _ => None,
    }
}

// Whether a comparison holds of two values; integers come first.
#[inline(always)]
fn compares(test: Comparison, left: &Value, right: &Value) -> Result<bool, ErrorCode>
    ensures { (w : MW) → returned (compare_op (test_of test) (value_of left.now) (value_of right.now) w) ≡ tested result w }
{
    let Value::Integer(i) = left else {
        return converted(test, left, right);
    };
    let Value::Integer(j) = right else {
        return converted(test, left, right);
    };
    Ok(test.holds(*i, *j))
}

// Whether a comparison holds of the integers that two values convert to.
#[inline(never)]
fn converted(test: Comparison, left: &Value, right: &Value) -> Result<bool, ErrorCode>
    ensures { (w : MW) → returned (compare_op (test_of test) (value_of left.now) (value_of right.now) w) ≡ tested result w }
{
    let i = left.to_int()?;
    let j = right.to_int()?;
    Ok(test.holds(i, j))
}

/// EQ, NE, LT, LE, GT and GE.
pub(crate) fn compare(test: Comparison, left: &Value, right: &Value) -> Result<Outcome, Fault>
    ensures answer { (w : MW)
        → ComesTo result w (returned
        (compare_op (test_of test) (value_of left.now) (value_of right.now) w)) }
    ensures stop { IfStopped result (λ stop. stop ≡ NoMemory) }
{
    Ok(Outcome::holds_if(compares(test, left, right)?))
}

/// LGT.
pub(crate) fn lgt(alloc: Global, left: &Value, right: &Value) -> Result<Outcome, Fault>
    ensures answer { AnswersAs result (lgt_op (value_of left.now) (value_of right.now)) }
    ensures stop { IfStopped result (λ stop. stop ≡ NoMemory) }
{
    if let (Value::String(s), Value::String(t)) = (left, right) {
        return Ok(Outcome::holds_if(comes_after(s.as_slice(), t.as_slice())));
    }
    let s = left.to_text(alloc)?;
    let t = right.to_text(alloc)?;
    Ok(Outcome::holds_if(comes_after(s.as_slice(), t.as_slice())))
}

fn comes_after(s: &[u8], t: &[u8]) -> bool
    ensures { result ≡ comes_after s.now t.now }
{
    s > t
}

/// IDENT.
pub(crate) fn ident(left: &Value, right: &Value) -> Result<Outcome, Fault>
    ensures answer { AnswersAs result
        (same_op (λ b. b) (same_value (value_of left.now) (value_of right.now))) }
    ensures stop { IfStopped result (λ stop. stop ≡ NoMemory) }
{
    Ok(Outcome::holds_if(same(left, right)?))
}

/// DIFFER.
pub(crate) fn differ(left: &Value, right: &Value) -> Result<Outcome, Fault>
    ensures answer { AnswersAs result
        (same_op not (same_value (value_of left.now) (value_of right.now))) }
    ensures stop { IfStopped result (λ stop. stop ≡ NoMemory) }
{
    Ok(Outcome::holds_if(!same(left, right)?))
}

// Whether two values have one type and one content, or E1 for a pattern or an expression.
fn same(left: &Value, right: &Value) -> Result<bool, ErrorCode>
    ensures { SameOr result (same_value (value_of left.now) (value_of right.now)) }
{
    same_value(left, right).ok_or(ErrorCode::WrongType)
}

// Whether two values have one type and one content; of patterns and expressions it can't be asked.
fn same_value(left: &Value, right: &Value) -> Option<bool>
    ensures { result ≡ same_value (value_of left.now) (value_of right.now) }
{
    match (left, right) {
        (Value::Pattern(_) | Value::Expression(_), _) => None,
        (_, Value::Pattern(_) | Value::Expression(_)) => None,
        (Value::String(s), Value::String(t)) => Some(s == t),
        (Value::Integer(i), Value::Integer(j)) => Some(i == j),
        (Value::Name(n), Value::Name(m)) => Some(same_name(n.as_name(), m.as_name())),
        (Value::Object(k), Value::Object(l)) => Some(k == l),
        _ => Some(false),
    }
}

// Whether two names are of one place.
fn same_name(left: &Name, right: &Name) -> bool
    ensures { result ≡ same_name (name_of left.now) (name_of right.now) }
{
    match (left, right) {
        (Name::Variable(x), Name::Variable(y)) => x == y,
        (
            Name::Element {
                object: k,
                index: i,
            },
            Name::Element {
                object: l,
                index: j,
            },
        ) => k == l && i == j,
        (Name::IntegerKey { object: k, key: i }, Name::IntegerKey { object: l, key: j }) => k == l
            && i == j,
        (Name::StringKey { object: k, key: s }, Name::StringKey { object: l, key: t }) => k == l
            && s == t,
        _ => false,
    }
}

/// INTEGER.
pub(crate) fn integer(value: &Value) -> Result<Outcome, Fault>
    ensures answer { AnswersAs result (holds_if (is_integer (value_of value.now))) }
    ensures stop { IfStopped result (λ stop. stop ≡ NoMemory) }
{
    Ok(Outcome::holds_if(value.to_int().is_ok()))
}
