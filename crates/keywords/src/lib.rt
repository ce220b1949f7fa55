//! The keywords and what they hold.
//!
//! `Keywords::get` gives what a keyword holds, `set` assigns it as a statement does, `put` and `returned` change it as
//! the machine itself does.
//!
//!     let mut keywords = Keywords::new(alloc)?;
//!     keywords.set(KeyId::Trim, 0)?;
//!     let trims = keywords.get(KeyId::Trim);
//!
//! Promised: each is its function on the table of keywords in `model`'s `Keywords`: what they hold at first, which are
//! protected, and which values each takes. Only `new` takes memory.
#![tactic(auto)]

ghost use Rattle.std.specs.Prelude.{◌≡◌, pos, IfOk, OnOk, OnErr, IfErr, IsTrue};
ghost use Rattle.model.specs.Language.Keywords.{alphabet, first_keys, key_value, put_key, IsInteger};
ghost use Rattle.keywords.specs.Answers.{is_counter, set_answer, shown, with_return};

use model::{KeyId, ReturnKind};
use std::alloc::Global;
use std::marker::Model;
use strings::{StrFault, Text};

/// Why a keyword was not set.
#[derive(Clone, Copy, PartialEq, Eq)]
pub enum KeyFault {
    /// No statement may assign it.
    Protected,
    /// Not with this value.
    NotAllowed,
}

/// What a keyword holds.
#[derive(Clone, Copy)]
pub enum KeyValue<'a> {
    Integer(i64),
    Text(&'a Text),
}

/// What each keyword holds.
pub struct Keywords {
    anchor: i64,
    full_scan: i64,
    trim: i64,
    input: i64,
    output: i64,
    st_limit: i64,
    max_lngth: i64,
    st_count: i64,
    st_no: i64,
    last_no: i64,
    st_f_count: i64,
    fnc_level: i64,
    newest_return: Option<ReturnKind>,
    alphabet: Text,
    null_text: Text,
    return_text: Text,
    freturn_text: Text,
    nreturn_text: Text,
}

impl Drop for Keywords {
    fn drop(self) {
        let Keywords {
            anchor: _,
            full_scan: _,
            trim: _,
            input: _,
            output: _,
            st_limit: _,
            max_lngth: _,
            st_count: _,
            st_no: _,
            last_no: _,
            st_f_count: _,
            fnc_level: _,
            newest_return: _,
            alphabet: _,
            null_text: _,
            return_text: _,
            freturn_text: _,
            nreturn_text: _,
        } = self;
    }
}

impl Model for Keywords {
    ghost use Rattle.model.specs.Language.Keywords.{Keys};
    ghost use Rattle.keywords.specs.Held.{keys_of, IsHeld};

    ghost Value = { Keys };

    ghost view = { keys_of };

    ghost invariant = { IsHeld };
}

impl Keywords {
    /// The keywords as a run begins.
    pub fn new(alloc: Global) -> Result<Keywords, StrFault>
        ensures ok { IfOk result (λ keys. keys ≡ first_keys) }
        ensures err { IfErr result (λ fault. fault ≡ StrFault.Memory) }
    {
        Ok(Keywords {
            anchor: 0,
            full_scan: 1,
            trim: 0,
            input: 1,
            output: 1,
            st_limit: 50_000,
            max_lngth: 5_000,
            st_count: 0,
            st_no: 0,
            last_no: 0,
            st_f_count: 0,
            fnc_level: 0,
            newest_return: None,
            alphabet: Text::from_slice(alloc, &every_byte())?,
            null_text: Text::null(),
            return_text: Text::from_slice(alloc, b"RETURN")?,
            freturn_text: Text::from_slice(alloc, b"FRETURN")?,
            nreturn_text: Text::from_slice(alloc, b"NRETURN")?,
        })
    }

    /// What a keyword holds.
    #[inline(always)]
    pub fn get(&self, id: KeyId) -> KeyValue<'_>
        ensures { shown result ≡ key_value id self.now }
    {
        match id {
            KeyId::Anchor => KeyValue::Integer(self.anchor),
            KeyId::FullScan => KeyValue::Integer(self.full_scan),
            KeyId::Trim => KeyValue::Integer(self.trim),
            KeyId::Input => KeyValue::Integer(self.input),
            KeyId::Output => KeyValue::Integer(self.output),
            KeyId::StLimit => KeyValue::Integer(self.st_limit),
            KeyId::MaxLngth => KeyValue::Integer(self.max_lngth),
            KeyId::Alphabet => KeyValue::Text(&self.alphabet),
            KeyId::StCount => KeyValue::Integer(self.st_count),
            KeyId::StNo => KeyValue::Integer(self.st_no),
            KeyId::LastNo => KeyValue::Integer(self.last_no),
            KeyId::StFCount => KeyValue::Integer(self.st_f_count),
            KeyId::FncLevel => KeyValue::Integer(self.fnc_level),
            KeyId::RtnType => match self.newest_return {
                None => KeyValue::Text(&self.null_text),
                Some(ReturnKind::Return) => KeyValue::Text(&self.return_text),
                Some(ReturnKind::FReturn) => KeyValue::Text(&self.freturn_text),
                Some(ReturnKind::NReturn) => KeyValue::Text(&self.nreturn_text),
            },
        }
    }

    /// The longest string that `&MAXLNGTH` allows.
    pub fn longest(&self) -> usize
        ensures { IsInteger (pos result) ≡ key_value KeyId.MaxLngth self.now }
    {
        self.max_lngth as usize
    }

    /// A statement's assignment to a keyword; a refused one changes nothing.
    pub fn set(&mut self, id: KeyId, n: i64) -> Result<(), KeyFault>
        ensures answer { result ≡ set_answer id n }
        ensures ok { OnOk result (self.new ≡ put_key id n self.old) }
        ensures err { OnErr result (self.new ≡ self.old) }
    {
        match id {
            KeyId::Anchor => self.anchor = n,
            KeyId::FullScan => {
                if n == 0 {
                    return Err(KeyFault::NotAllowed);
                }
                self.full_scan = n;
            }
            KeyId::Trim => self.trim = n,
            KeyId::Input => self.input = n,
            KeyId::Output => self.output = n,
            KeyId::StLimit => self.st_limit = n,
            KeyId::MaxLngth => {
                if n < 0 || n > 16_777_216 {
                    return Err(KeyFault::NotAllowed);
                }
                self.max_lngth = n;
            }
            _ => return Err(KeyFault::Protected),
        }
        Ok(())
    }

    /// The machine's own change of a keyword that counts.
    #[inline(always)]
    pub fn put(&mut self, id: KeyId, n: i64)
        requires { IsTrue (is_counter id) }
        ensures { self.new ≡ put_key id n self.old }
    {
        match id {
            KeyId::StCount => self.st_count = n,
            KeyId::StNo => self.st_no = n,
            KeyId::LastNo => self.last_no = n,
            KeyId::StFCount => self.st_f_count = n,
            KeyId::FncLevel => self.fnc_level = n,
            _ => unreachable!(),
        }
    }

    /// A function was left in this way: what `&RTNTYPE` holds from now on.
    pub fn returned(&mut self, kind: ReturnKind)
        ensures { self.new ≡ with_return kind self.old }
    {
        self.newest_return = Some(kind);
    }
}

// The 256 bytes in rising order.
fn every_byte() -> [u8; 256]
    ensures { result ≡ alphabet }
{
    let mut bytes = [0u8; 256];
    for b in 0..256 {
        bytes[b] = b as u8;
    }
    bytes
}
