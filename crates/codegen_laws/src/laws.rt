//! The laws of images. Each function does nothing; its contract states a law.

ghost use Rattle.codegen_laws.specs.CodegenLaws.{AreCountable, AreFit, DoesAsMeant, IsInTime, IsPlaced};
ghost use Rattle.codegen_laws.specs.CodegenLaws.{IsPrintedInTime, IsSmall, IsSound, IsSpelt};

/// The trees of an accepted deck keep what their code relies on: names are nonnull, keywords known, targets targets,
/// END is last, no label is there twice, and calls and references have as few arguments as instructions can count.
pub fn accepted_trees()
    ensures fit { AreFit }
    ensures countable { AreCountable }
{}

/// The code of each statement and expression of an accepted deck stands in its image.
pub fn placed_images()
    ensures { IsPlaced }
{}

/// The image of an accepted deck has a spelling, is well-formed, has little code, does what the deck means, and ends and
/// prints in time.
pub fn accepted_images()
    ensures spelt { IsSpelt }
    ensures sound { IsSound }
    ensures small { IsSmall }
    ensures agrees { DoesAsMeant }
    ensures in_time { IsInTime }
    ensures prints { IsPrintedInTime }
{}
