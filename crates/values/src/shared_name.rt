//! Names as values.

ghost use Rattle.std.specs.Prelude.{◌≡◌, IfOk};

use pattern_compiler::Name;
use std::alloc::{AllocError, Global};
use std::marker::Model;
use std::rc::Rc;

/// A name as a value, which contracts see as the name. Its clones share it, so that a value takes no room for it.
pub struct SharedName {
    shared: Rc<Name>,
}

impl Drop for SharedName {
    #[inline(never)]
    fn drop(self) {
        let SharedName { shared: _ } = self;
    }
}

impl Model for SharedName {
    ghost use Rattle.pattern_compiler.specs.declared.instr.Name.{Name};

    ghost Value = { Name };

    ghost view = { λ n. n.shared.value };
}

impl SharedName {
    /// The name, to be shared.
    pub fn of(alloc: Global, name: Name) -> Result<SharedName, AllocError>
        ensures { IfOk result (λ shared. shared ≡ name) }
    {
        let shared = Rc::new(alloc, name)?;
        Ok(SharedName { shared })
    }

    /// The name.
    pub fn as_name(&self) -> &Name
        ensures { result.now ≡ self.now }
    {
        self.shared.as_ref()
    }
}

impl Clone for SharedName {
    ghost is_clone = { λ name copy. copy ≡ name };

    fn clone(&self) -> Result<SharedName, AllocError> {
        let shared = self.shared.clone()?;
        Ok(SharedName { shared })
    }
}
