//! The records that were written, in one order over all units. They exist only in proofs.

ghost use Rattle.std.specs.Prelude.{◌≡◌, []};
ghost use Rattle.std.specs.Borrow.{ftrue};
ghost use Rattle.model.specs.Laws.Agreement.{Records};
ghost use Rattle.unit_io.specs.Written.{noted, records_code};

use std::marker::{Model, PhantomData};

/// The records that were written. It has no bytes, and its calls do nothing at run time.
#[derive(Drop)]
pub struct History {
    marker: PhantomData<u8>,
    pub ghost records: { Records } by { records_code },
}

impl Model for History {
    ghost also_owns = { λ _. ftrue };
}

impl History {
    /// No record.
    pub(crate) fn new() -> History
        ensures { result.records ≡ [] }
    {
        History {
            marker: PhantomData,
        }
    }

    /// One record more.
    pub(crate) fn note(&mut self, _unit: u8, _bytes: &[u8])
        ensures { self.new.records ≡ noted self.old.records _unit _bytes.now }
    {}
}
