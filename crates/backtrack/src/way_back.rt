//! What a choice goes back to, and the choices of a match.

ghost use Rattle.std.specs.Prelude.{◌≡◌, IfOk};
ghost use Rattle.backtrack.specs.Logs.{IsChoice, kept_by};

use std::alloc::AllocError;

/// What is gone back to: on at a place, at a further end of ARB or BAL, an instruction to be done again, or the end of
/// the match.
#[derive(Clone, Copy)]
pub enum WayBack {
    To(usize),
    Arb(usize),
    Bal(usize),
    Again,
    Quit,
}

/// What kind of thing is gone back to.
#[derive(Clone, Copy)]
pub enum Kind {
    To,
    Arb,
    Bal,
    Again,
    Quit,
}

/// What is gone back to, with the list of notes and the lengths that the logs are cut to. Its numbers take half the
/// room that they have elsewhere, since a match may keep a choice for each byte of its subject.
#[derive(Clone, Copy)]
pub struct Choice {
    pub kind: Kind,
    /// Where it goes on, or the next end.
    pub target: u32,
    pub place: u32,
    pub cursor: u32,
    pub head: u32,
    pub log: u32,
    pub pending: u32,
    pub codes: u32,
}

const _: () = prove!(size_of::<Choice>() <= 32);

/// The kind of what is gone back to, and its number.
#[inline(always)]
pub fn parts(kept: WayBack) -> (Kind, usize)
    ensures { kept_by result.0 result.1 ≡ kept }
{
    match kept {
        WayBack::To(place) => (Kind::To, place),
        WayBack::Arb(end) => (Kind::Arb, end),
        WayBack::Bal(end) => (Kind::Bal, end),
        WayBack::Again => (Kind::Again, 0),
        WayBack::Quit => (Kind::Quit, 0),
    }
}

impl Choice {
    /// A choice, with the list of notes and the lengths of the log, the pending assignments and the codes. Where a
    /// number passes 32 bits it is refused, as by want of memory: a match with so many has no room anyway.
    #[inline(always)]
    pub fn new(
        kept: WayBack,
        place: usize,
        cursor: usize,
        head: usize,
        lengths: (usize, usize, usize),
    ) -> Result<Choice, AllocError>
        ensures { IfOk result (λ x. IsChoice x kept place cursor head lengths) }
    {
        let (kind, target) = parts(kept);
        let (log, pending, codes) = lengths;
        let all = target | place | cursor | head | log | pending | codes;
        if all > u32::MAX as usize {
            return Err(AllocError);
        }
        Ok(Choice {
            kind,
            target: target as u32,
            place: place as u32,
            cursor: cursor as u32,
            head: head as u32,
            log: log as u32,
            pending: pending as u32,
            codes: codes as u32,
        })
    }

    /// What is gone back to.
    #[inline(always)]
    pub fn kept(&self) -> WayBack
        ensures { result ≡ kept_by self.now.kind self.now.target }
    {
        let target = self.target as usize;
        match self.kind {
            Kind::To => WayBack::To(target),
            Kind::Arb => WayBack::Arb(target),
            Kind::Bal => WayBack::Bal(target),
            Kind::Again => WayBack::Again,
            Kind::Quit => WayBack::Quit,
        }
    }
}
