//! Lists of names.

ghost use Rattle.std.specs.Prelude.{◌≡◌, IfOk};

use crate::items::copied;
use std::alloc::{AllocError, Global};
use std::marker::Model;
use std::rc::Rc;
use strings::Text;

/// Names that never change, which contracts see as a list. Its clones share them.
pub struct Names {
    names: Rc<Vec<Text>>,
}

impl Drop for Names {
    fn drop(self) {
        let Names { names: _ } = self;
    }
}

impl Model for Names {
    ghost use Rattle.std.specs.Prelude.{List};
    ghost use Rattle.model.specs.Deck.Trees.{Bytes};

    ghost Value = { List Bytes };

    ghost view = { λ n. n.names.value.items };
}

impl Names {
    /// The names of a vector.
    pub fn new(alloc: Global, names: Vec<Text>) -> Result<Names, AllocError>
        ensures { IfOk result (λ list. list ≡ names.items) }
    {
        let names = Rc::new(alloc, names)?;
        Ok(Names { names })
    }

    /// The names of a slice.
    pub fn from_slice(alloc: Global, names: &[Text]) -> Result<Names, AllocError>
        ensures { IfOk result (λ list. list ≡ names.now) }
    {
        Names::new(alloc, copied(alloc, names)?)
    }

    /// The names in order.
    pub fn as_slice(&self) -> &[Text]
        ensures { result.now ≡ self.now }
    {
        self.names.as_ref().as_slice()
    }
}

impl Clone for Names {
    ghost use Rattle.std.specs.Prelude.{◌≡◌};

    ghost is_clone = { λ names copy. copy ≡ names };

    fn clone(&self) -> Result<Names, AllocError> {
        let names = self.names.clone()?;
        Ok(Names { names })
    }
}
