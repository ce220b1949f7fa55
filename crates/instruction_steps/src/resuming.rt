//! Where a caller goes on with what its call gave.

ghost use Rattle.std.specs.Prelude.{◌≡◌, List, false, true};
ghost use Rattle.model.specs.Language.Io.{Io};
ghost use Rattle.model.specs.declared.image.Image.{Image};
ghost use Rattle.model.specs.declared.run.Stop.TheVariants.{NoMemory};
ghost use Rattle.frames.specs.declared.frame.Frame.{Frame};
ghost use Rattle.operations.specs.Asking.{Takes};
ghost use Rattle.instruction_steps.specs.Asking.{io_at};
ghost use Rattle.instruction_steps.specs.Held.{Left, StaysSound};
ghost use Rattle.instruction_steps.specs.Resuming.{CallerStands, resumed_with};
ghost use Rattle.instruction_steps.specs.Stopped.{IfHalted, halted_by};
ghost use Rattle.unit_io.specs.Service.{IsQuiet, Served};

use crate::state::State;
use crate::status::Exit;
use operations::returned_value;
use unit_io::Units;
use values::Fault;
use world::Given;

impl State {
    // On with the value of what a call gave. That of a name is fetched.
    #[inline(never)]
    fn resume_for_value<U: Units>(
        &mut self,
        units: &mut U,
        given: Given,
        next: usize,
    ) -> Result<(), Exit>
        ensures served { Served U.Units (halted_by result) units.old units.new (λ io io'.
            (im : Image) (fs : List Frame)
            → Left im fs result self.new io' (resumed_with im fs false next given self.old io)) }
        ensures quiet { IsQuiet (halted_by result) (U.told units.old) (U.told units.new) }
        ensures asked { (im : Image) (fs : List Frame)
            → Takes (U.may_fail units.old) (halted_by result) (λ io.
            io_at (resumed_with im fs false next given self.old io)) }
        ensures sound { (im : Image) (fs : List Frame) → CallerStands im fs false next self.old
            → StaysSound im fs result self.new }
        ensures names { self.new.world.names ≡ self.old.world.names }
    {
        let answer = returned_value(&mut self.world, units, given);
        self.gave(answer, next)
    }

    // On with the name that a call gave, which a value isn't.
    #[inline(never)]
    fn resume_for_name(&mut self, given: Given, next: usize) -> Result<(), Exit>
        ensures left { (im : Image) (fs : List Frame) (io : Io)
            → Left im fs result self.new io (resumed_with im fs true next given self.old io) }
        ensures stop { IfHalted result (λ stop. stop ≡ NoMemory) }
        ensures names { self.new.world.names ≡ self.old.world.names }
    {
        match given.into_name() {
            Ok(name) => self.put_name(name, next),
            Err(code) => Err(Exit::Fault(Fault::Error(code))),
        }
    }

    /// On with what a call gave, for a value or for a name.
    #[inline(always)]
    pub fn resume<U: Units>(
        &mut self,
        units: &mut U,
        given: Given,
        want_name: bool,
        next: usize,
    ) -> Result<(), Exit>
        ensures served { Served U.Units (halted_by result) units.old units.new (λ io io'.
            (im : Image) (fs : List Frame)
            → Left im fs result self.new io' (resumed_with im fs want_name next given self.old io)) }
        ensures quiet { IsQuiet (halted_by result) (U.told units.old) (U.told units.new) }
        ensures asked { (im : Image) (fs : List Frame)
            → Takes (U.may_fail units.old) (halted_by result) (λ io.
            io_at (resumed_with im fs want_name next given self.old io)) }
        ensures sound { (im : Image) (fs : List Frame) → CallerStands im fs want_name next self.old
            → StaysSound im fs result self.new }
        ensures names { self.new.world.names ≡ self.old.world.names }
    {
        if want_name {
            return self.resume_for_name(given, next);
        }
        match given {
            Given::Value(value) => self.put(value, next),
            given => self.resume_for_value(units, given, next),
        }
    }
}
