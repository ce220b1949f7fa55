//! What arrays, tables and records hold.

ghost use Rattle.std.specs.Prelude.{◌≡◌, ◌++◌, IfOk, OnOk, OnErr, replicate};
ghost use Rattle.aggregates.specs.Keys.{key_of};

use crate::place::Key;
use std::alloc::AllocError;

/// A value that an array, a table or a record holds. A clone is the same value.
pub trait Element: Clone + Drop {
    ghost use Rattle.std.specs.Prelude.{Bool};
    ghost use Rattle.model.specs.Language.Values as values;

    // Whether a value is null.
    ghost null_test: { Self → Bool };

    // The value that a key is.
    ghost key_value: { values.Key → Self };

    /// Whether it is null.
    fn is_null(&self) -> bool
        ensures { result ≡ null_test self.now };

    /// Takes the place of the value that is here.
    fn put(&mut self, value: Self)
        ensures { self.new ≡ value };

    /// Puts so many copies behind some values.
    fn append(&self, items: &mut Vec<Self>, count: usize) -> Result<(), AllocError>
        ensures appended { OnOk result (items.new.items ≡ items.old.items ++ replicate count self.now) }
        ensures refused { OnErr result (items.new.items ≡ items.old.items) };

    /// The value that a key is.
    fn from_key(key: &Key) -> Result<Self, AllocError>
        ensures { IfOk result (λ value. value ≡ key_value (key_of key.now)) };

    ghost clones: { (value copy : Self) → Self.is_clone value copy → copy ≡ value };
}
