//! Prototypes of types.

ghost use Rattle.std.specs.Prelude.{◌≡◌, ◌==◌, [], length, bytes_eq, IfOk};
ghost use Rattle.std.specs.List.{list_any};
ghost use Rattle.model.specs.Language.Prototypes.{cut_at, is_primitive, is_type, listed, own_types};
ghost use Rattle.model.specs.Language.Prototypes.{passing, type_cut, type_prototype};

use crate::names::{are_distinct_names, is_primitive};
use crate::parts::{cut, push_listed, push_name};
use aggregates::Names;
use model::Level;
use std::alloc::{AllocError, Global};
use std::marker::Model;
use strings::Text;

/// The prototype that DATA takes: a type's name and its fields. Its clones share them.
pub struct TypePrototype {
    // The type's name, and then the fields.
    names: Names,
}

impl Drop for TypePrototype {
    fn drop(self) {
        let TypePrototype { names: _ } = self;
    }
}

impl Model for TypePrototype {
    ghost use Rattle.std.specs.Prelude.{◌<◌, length};
    ghost use Rattle.model.specs.Language.Prototypes as model;
    ghost use Rattle.prototypes.specs.Views.{type_of};

    ghost Value = { model.TypePrototype };

    ghost view = { λ t. type_of t.names };

    ghost invariant = { λ t. 0 < length t.names };
}

impl TypePrototype {
    /// The type's name.
    pub fn name(&self) -> &Text
        ensures { result.now ≡ self.now.name }
    {
        &self.names.as_slice()[0]
    }

    /// The fields.
    pub fn fields(&self) -> &[Text]
        ensures { result.now ≡ self.now.fields }
    {
        &self.names.as_slice()[1..]
    }

    // Whether a type may have this prototype at a level.
    fn is_type(&self, alloc: Global, level: Level) -> Result<bool, AllocError>
        ensures { IfOk result (λ answer. answer ≡ is_type level self.now) }
    {
        let names = self.names.as_slice();
        if names.len() < 2 {
            return Ok(false);
        }
        if any_primitive(level, names) {
            return Ok(false);
        }
        if is_own_type(self.name().as_slice()) {
            return Ok(false);
        }
        are_distinct_names(alloc, names)
    }
}

fn any_primitive(level: Level, names: &[Text]) -> bool
    ensures { result ≡ list_any (is_primitive level) names.now }
{
    names
        .iter()
        .any(|name| is_primitive(level, name.as_slice()))
}

// Whether values that aren't a programmer's have a type of this name.
fn is_own_type(name: &[u8]) -> bool
    ensures { result ≡ list_any (λ own. bytes_eq name.now own) own_types }
{
    name == b"STRING".as_slice()
        || name == b"INTEGER".as_slice()
        || name == b"PATTERN".as_slice()
        || name == b"NAME".as_slice()
        || name == b"EXPRESSION".as_slice()
        || name == b"ARRAY".as_slice()
        || name == b"TABLE".as_slice()
}

// The prototype of these parts.
fn type_of(alloc: Global, name: &[u8], fields: &[u8]) -> Result<TypePrototype, AllocError>
    ensures { IfOk result (λ t. t ≡ record { name = name.now; fields = listed fields.now; rest = [] }) }
{
    let mut names = Vec::new(alloc);
    push_name(alloc, name, &mut names)?;
    push_listed(alloc, fields, &mut names)?;
    Ok(TypePrototype {
        names: Names::new(alloc, names)?,
    })
}

// The parts of a prototype with nothing behind them, whether they are names or not.
fn parts_of(alloc: Global, text: &[u8]) -> Result<Option<TypePrototype>, AllocError>
    ensures { IfOk result (λ parts. parts ≡ passing (λ t. length t.rest == 0) (type_cut (cut_at 40 text.now))) }
{
    let Some((name, inner)) = cut(b'(', text) else {
        return Ok(None);
    };
    let Some((fields, rest)) = cut(b')', inner) else {
        return Ok(None);
    };
    if !rest.is_empty() {
        return Ok(None);
    }
    Ok(Some(type_of(alloc, name, fields)?))
}

/// The prototype that a text is, if it is one of a type at a level.
pub fn type_prototype(
    alloc: Global,
    level: Level,
    text: &[u8],
) -> Result<Option<TypePrototype>, AllocError>
    ensures { IfOk result (λ prototype. prototype ≡ type_prototype level text.now) }
{
    let Some(prototype) = parts_of(alloc, text)? else {
        return Ok(None);
    };
    if !prototype.is_type(alloc, level)? {
        return Ok(None);
    }
    Ok(Some(prototype))
}
