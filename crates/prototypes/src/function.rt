//! Prototypes of functions.

ghost use Rattle.std.specs.Prelude.{◌≡◌, ◌⊎◌, ◌<◌, [], true, length, option_map, IfOk, IfSome};
ghost use Rattle.model.specs.Language.Prototypes.{are_distinct, cut_at, function_cut, function_prototype};
ghost use Rattle.model.specs.Language.Prototypes.{is_function, listed};
ghost use Rattle.prototypes.specs.Views.{names_of, of_parts, without_slots};

use crate::names::{are_distinct_names, is_primitive};
use crate::parts::{cut, push_listed, push_name};
use model::Level;
use std::alloc::{AllocError, Global};
use std::marker::Model;
use std::rc::Rc;
use strings::Text;

// What the clones of a prototype share.
#[derive(Drop)]
struct Parts {
    // The function's name, the arguments and then the locals.
    names: Vec<Text>,
    // How many arguments there are.
    arity: usize,
    // The slots of the variables of the names, in the same order, where they are known.
    slots: Vec<u32>,
}

/// The prototype that DEFINE takes: a function's name, its arguments and its locals, all different. Its clones share them.
pub struct FunctionPrototype {
    parts: Rc<Parts>,
}

impl Drop for FunctionPrototype {
    fn drop(self) {
        let FunctionPrototype { parts: _ } = self;
    }
}

impl Model for FunctionPrototype {
    ghost use Rattle.std.specs.Prelude.{◌≡◌, ◌<◌, true, length};
    ghost use Rattle.model.specs.Language.Prototypes as model;
    ghost use Rattle.prototypes.specs.Views.{FunctionView, function_of, slotted};

    ghost Value = { FunctionView };

    ghost view = { λ f.
        slotted f.parts.value.slots.items (function_of f.parts.value.names.items f.parts.value.arity) };

    ghost invariant = { λ f.
        (f.parts.value.arity < length f.parts.value.names.items)
        × (model.are_distinct f.parts.value.names.items ≡ true) };
}

impl Clone for FunctionPrototype {
    ghost use Rattle.std.specs.Prelude.{◌≡◌};

    ghost is_clone = { λ prototype copy. copy ≡ prototype };

    fn clone(&self) -> Result<FunctionPrototype, AllocError> {
        let parts = self.parts.clone()?;
        Ok(FunctionPrototype { parts })
    }
}

impl FunctionPrototype {
    /// The function's name.
    pub fn name(&self) -> &Text
        ensures { result.now ≡ self.now.name }
    {
        &self.names()[0]
    }

    /// The function's name, its arguments and its locals, which are all different.
    pub fn names(&self) -> &[Text]
        ensures names { result.now ≡ names_of self.now }
        ensures distinct { are_distinct result.now ≡ true }
    {
        self.parts.as_ref().names.as_slice()
    }

    /// How many arguments there are.
    pub fn arity(&self) -> usize
        ensures { result ≡ length self.now.arguments }
    {
        self.parts.as_ref().arity
    }

    /// The arguments.
    pub fn arguments(&self) -> &[Text]
        ensures { result.now ≡ self.now.arguments }
    {
        let parts = self.parts.as_ref();
        &parts.names.as_slice()[1..][..parts.arity]
    }

    /// The locals.
    pub fn locals(&self) -> &[Text]
        ensures { result.now ≡ self.now.locals }
    {
        let parts = self.parts.as_ref();
        &parts.names.as_slice()[parts.arity + 1..]
    }

    /// The slots of the variables of the names, in the order of `names`. At the end some may be missing.
    pub fn slots(&self) -> &[u32]
        ensures { result.now ≡ self.now.slots }
    {
        self.parts.as_ref().slots.as_slice()
    }

    /// The prototype with these slots in place of its own. One that is shared keeps those that it has.
    pub fn with_slots(self, alloc: Global, slots: Vec<u32>) -> Result<FunctionPrototype, AllocError>
        ensures { IfOk result (λ prototype.
            (prototype ≡ record self { slots = slots.items }) ⊎ (prototype ≡ self)) }
    {
        let FunctionPrototype { parts } = self;
        let parts = match Rc::try_unwrap(parts) {
            Ok(parts) => {
                let mut parts = parts;
                parts.slots = slots;
                Rc::new(alloc, parts)?
            }
            Err(parts) => parts,
        };
        Ok(FunctionPrototype { parts })
    }
}

impl Parts {
    // Whether a function may have this prototype at a level.
    fn is_function(&self, alloc: Global, level: Level) -> Result<bool, AllocError>
        requires { self.now.arity < length self.now.names.items }
        ensures { IfOk result (λ answer. answer ≡ is_function level (of_parts self.now)) }
    {
        if is_primitive(level, self.names[0].as_slice()) {
            return Ok(false);
        }
        are_distinct_names(alloc, self.names.as_slice())
    }
}

// The prototype of these parts.
fn prototype_of(
    alloc: Global,
    name: &[u8],
    arguments: &[u8],
    locals: &[u8],
) -> Result<Parts, AllocError>
    ensures parts { IfOk result (λ parts.
        of_parts parts ≡ record {
          name = name.now;
          arguments = listed arguments.now;
          locals = listed locals.now;
        }) }
    ensures arity { IfOk result (λ parts. parts.arity < length parts.names.items) }
    ensures slots { IfOk result (λ parts. parts.slots.items ≡ []) }
{
    let mut names = Vec::new(alloc);
    push_name(alloc, name, &mut names)?;
    push_listed(alloc, arguments, &mut names)?;
    let count = names.len();
    push_listed(alloc, locals, &mut names)?;
    Ok(Parts {
        names,
        arity: count - 1,
        slots: Vec::new(alloc),
    })
}

// The parts of a prototype, whether they are names or not.
fn parts_of(alloc: Global, text: &[u8]) -> Result<Option<Parts>, AllocError>
    ensures parts { IfOk result (λ parts. option_map of_parts parts ≡ function_cut (cut_at 40 text.now)) }
    ensures arity { IfOk result (λ parts. IfSome parts (λ p. p.arity < length p.names.items)) }
    ensures slots { IfOk result (λ parts. IfSome parts (λ p. p.slots.items ≡ [])) }
{
    let Some((name, inner)) = cut(b'(', text) else {
        return Ok(None);
    };
    let Some((arguments, locals)) = cut(b')', inner) else {
        return Ok(None);
    };
    Ok(Some(prototype_of(alloc, name, arguments, locals)?))
}

/// The prototype that a text is, if it is one of a function at a level. It has no slots.
pub fn function_prototype(
    alloc: Global,
    level: Level,
    text: &[u8],
) -> Result<Option<FunctionPrototype>, AllocError>
    ensures { IfOk result (λ prototype.
        prototype ≡ option_map without_slots (function_prototype level text.now)) }
{
    let Some(parts) = parts_of(alloc, text)? else {
        return Ok(None);
    };
    if !parts.is_function(alloc, level)? {
        return Ok(None);
    }
    let parts = Rc::new(alloc, parts)?;
    Ok(Some(FunctionPrototype { parts }))
}
