//! The instructions of pattern code.

use crate::set::Set;
use std::alloc::AllocError;
use strings::Text;

/// What can be assigned to.
pub enum Name {
    Variable(Text),
    /// An element of an array by its place, or a field of a record.
    Element { object: usize, index: usize },
    /// The value that a table has for an integer.
    IntegerKey { object: usize, key: i64 },
    /// The value that a table has for a string.
    StringKey { object: u32, key: Text },
}

const _: () = prove!(size_of::<Name>() <= 32);

/// A part without parts and without effect.
pub enum Basic {
    Lit(Text),
    Len(u64),
    Pos(u64),
    RPos(u64),
    Tab(u64),
    RTab(u64),
    Any(Set),
    NotAny(Set),
    Span(Set),
    Break(Set),
    Rem,
    Arb,
    Bal,
    Fail,
}

/// The kinds whose argument may be deferred.
#[derive(Clone, Copy)]
pub enum Kind {
    Len,
    Pos,
    RPos,
    Tab,
    RTab,
    Any,
    NotAny,
    Span,
    Break,
}

/// An instruction of pattern code. Distances count instructions from the instruction itself; an expression is its
/// number.
pub enum Instr {
    Do(Basic),
    /// Goes on, and keeps a choice to go on at the distance.
    Split(i64),
    Jmp(i64),
    /// Matches null, and again on each return.
    Succeed,
    Abort,
    Fence,
    /// Notes the cursor.
    Open,
    /// Notes how many choices there are.
    OpenFence,
    /// Keeps the choices that its `OpenFence` noted.
    CloseFence,
    /// A conditional assignment of what stands since the noted cursor.
    Close(Name),
    /// An immediate assignment of what stands since the noted cursor.
    Say(Name),
    /// An assignment of the cursor.
    At(Name),
    /// Asks for a pattern and enters it.
    Eval(u32),
    /// Asks for the argument of the kind.
    EvalBasic(Kind, u32),
}

impl Clone for Name {
    ghost use Rattle.std.specs.Prelude.{◌≡◌};

    ghost is_clone = { λ name copy. copy ≡ name };

    fn clone(&self) -> Result<Name, AllocError> {
        Ok(match self {
            Name::Variable(text) => Name::Variable(text.clone()?),
            Name::Element { object, index } => Name::Element {
                object: *object,
                index: *index,
            },
            Name::IntegerKey { object, key } => Name::IntegerKey {
                object: *object,
                key: *key,
            },
            Name::StringKey { object, key } => Name::StringKey {
                object: *object,
                key: key.clone()?,
            },
        })
    }
}

// A drop that is written out is one call at each place that lets go, where a derived one stands there whole, arm by
// arm, and is proved there anew.
impl Drop for Name {
    #[inline(always)]
    fn drop(self) {
        match self {
            Name::Variable(_) | Name::StringKey { object: _, key: _ } => {}
            Name::Element {
                object: _,
                index: _,
            }
            | Name::IntegerKey { object: _, key: _ } => {}
        }
    }
}

impl Drop for Basic {
    #[inline(always)]
    fn drop(self) {
        match self {
            Basic::Lit(_) | Basic::Any(_) | Basic::NotAny(_) | Basic::Span(_) | Basic::Break(_) =>
                {}
            Basic::Len(_) | Basic::Pos(_) | Basic::RPos(_) | Basic::Tab(_) | Basic::RTab(_) => {}
            Basic::Rem | Basic::Arb | Basic::Bal | Basic::Fail => {}
        }
    }
}

impl Drop for Instr {
    #[inline(always)]
    fn drop(self) {
        match self {
            Instr::Do(_) => {}
            Instr::Close(_) | Instr::Say(_) | Instr::At(_) => {}
            Instr::Split(_) | Instr::Jmp(_) | Instr::Eval(_) | Instr::EvalBasic(_, _) => {}
            Instr::Succeed | Instr::Abort | Instr::Fence => {}
            Instr::Open | Instr::OpenFence | Instr::CloseFence => {}
        }
    }
}
