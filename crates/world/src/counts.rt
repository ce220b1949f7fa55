//! Keywords in which a run counts its statements.

ghost use Rattle.std.specs.Prelude.{◌≡◌, ◌+ℤ◌, ◌≤ℤ◌, ◌<ℤ◌, pos, IsTrue};
ghost use Rattle.model.specs.Language.Io.{Io};
ghost use Rattle.model.specs.Language.Keywords.{IsInteger, Keys, key_value};
ghost use Rattle.model.specs.Language.Keywords as keys;
ghost use Rattle.model.specs.Language.Meaning.{over_limit};
ghost use Rattle.model.specs.Language.Values as values;
ghost use Rattle.model.specs.Language.Values.{enter_stmt};
ghost use Rattle.world.specs.Counts.{deeper, is_counted, with_caller};
ghost use Rattle.world.specs.Held.{StaySilent, world_of};

use crate::world::World;
use keywords::{KeyValue, Keywords};
use model::{KeyId, ReturnKind};

// What a keyword holds that counts or limits statements.
fn integer(keywords: &Keywords, id: KeyId) -> i64
    requires { IsTrue (is_counted id) }
    ensures { IsInteger result ≡ key_value id keywords.now }
{
    match keywords.get(id) {
        KeyValue::Integer(n) => n,
        KeyValue::Text(_) => unreachable!(),
    }
}

// One more, but never past the greatest integer.
fn counted(n: i64) -> i64
    ensures { result ≡ keys.counted_up n }
{
    if n < i64::MAX { n + 1 } else { n }
}

impl World {
    /// The number of the statement that began last.
    pub fn statement(&self) -> i64
        ensures { self.now.keys.stno ≡ result }
    {
        integer(&self.keywords, KeyId::StNo)
    }

    /// Whether `&STLIMIT` statements were begun.
    pub fn is_over_limit(&self) -> bool
        ensures { (io : Io) → result ≡ over_limit (world_of self.now io) }
    {
        let limit = integer(&self.keywords, KeyId::StLimit);
        limit >= 0 && limit <= integer(&self.keywords, KeyId::StCount)
    }

    /// How many statements may begin before `&STLIMIT` refuses one; the greatest number where it refuses none.
    pub fn statements_left(&self) -> u64
        ensures unlimited { self.now.keys.stlimit <ℤ pos 0 → result ≡ u64.MAX }
        ensures none { pos 0 ≤ℤ self.now.keys.stlimit → self.now.keys.stlimit ≤ℤ self.now.keys.stcount → result ≡ 0 }
        ensures some { pos 0 ≤ℤ self.now.keys.stlimit → self.now.keys.stcount ≤ℤ self.now.keys.stlimit
            → (self.now.keys.stcount +ℤ pos result) ≡ self.now.keys.stlimit }
    {
        let limit = integer(&self.keywords, KeyId::StLimit);
        if limit < 0 {
            return u64::MAX;
        }
        let count = integer(&self.keywords, KeyId::StCount);
        if limit <= count {
            return 0;
        }
        limit.abs_diff(count)
    }

    /// The statement of this number begins.
    pub fn enter_statement(&mut self, number: u32)
        ensures entered { (io : Io) → world_of self.new io ≡ enter_stmt number (world_of self.old io) }
        ensures silent { StaySilent self.old self.new }
        ensures names { self.new.names ≡ self.old.names }
    {
        let count = counted(integer(&self.keywords, KeyId::StCount));
        let last = integer(&self.keywords, KeyId::StNo);
        self.keywords.put(KeyId::StCount, count);
        self.keywords.put(KeyId::LastNo, last);
        self.keywords.put(KeyId::StNo, i64::from(number));
    }

    /// How many calls there are that didn't end.
    pub fn level(&self) -> i64
        ensures { self.now.keys.fnclevel ≡ result }
    {
        integer(&self.keywords, KeyId::FncLevel)
    }

    /// One more of them.
    pub(crate) fn deepen(&mut self)
        ensures set { (io : Io) → world_of self.new io ≡ deeper (world_of self.old io) }
        ensures names { self.new.names ≡ self.old.names }
    {
        let level = counted(integer(&self.keywords, KeyId::FncLevel));
        self.keywords.put(KeyId::FncLevel, level);
    }

    /// The keywords of the caller, as a call ends in this way.
    pub(crate) fn put_back(&mut self, kind: ReturnKind, statement: i64, level: i64)
        ensures set { (io : Io) → world_of self.new io ≡ with_caller kind statement level (world_of self.old io) }
        ensures names { self.new.names ≡ self.old.names }
    {
        self.keywords.put(KeyId::StNo, statement);
        self.keywords.put(KeyId::FncLevel, level);
        self.keywords.returned(kind);
    }

    /// A statement failed.
    pub fn count_failure(&mut self)
        ensures counted { (io : Io) → world_of self.new io ≡ values.count_failure (world_of self.old io) }
        ensures silent { StaySilent self.old self.new }
        ensures names { self.new.names ≡ self.old.names }
    {
        let count = counted(integer(&self.keywords, KeyId::StFCount));
        self.keywords.put(KeyId::StFCount, count);
    }

    /// How many statements failed.
    pub fn failures(&self) -> i64
        ensures { self.now.keys.stfcount ≡ result }
    {
        integer(&self.keywords, KeyId::StFCount)
    }
}
