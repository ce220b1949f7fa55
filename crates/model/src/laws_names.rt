//! The laws of names. Each function does nothing; its contract states a law.

ghost use Rattle.model.specs.Laws.Names.{KeyNames, PrimNames};

/// A keyword's name is that keyword's alone.
pub fn key_names()
    ensures { KeyNames }
{}

/// A primitive's name is that primitive's alone.
pub fn prim_names()
    ensures { PrimNames }
{}
