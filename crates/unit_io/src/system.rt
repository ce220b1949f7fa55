//! The system on which units are opened.

ghost use Rattle.std.specs.Prelude.{[], IfOk};
ghost use Rattle.std.specs.Io.KnownBytes.{Keeps};
ghost use Rattle.unit_io.specs.Sides.{exposed};

use std::io::{self, Read, Write};

/// A system that opens standard input, standard output and files. It may expose the bytes that they hold; then units on
/// it expose their records.
pub trait UnitSystem {
    ghost use Rattle.std.specs.Prelude.{Bool, List, ℕ};

    /// Standard input.
    type Input: Read + Drop;

    /// Standard output.
    type Output: Write + Drop;

    /// A file that is read.
    type Source: Read + Drop;

    /// A file that is written.
    type Target: Write + Drop;

    /// Whether it exposes the bytes that are read and written.
    ghost exposes: { Self → Bool };

    /// The bytes of standard input, if it exposes them.
    ghost input_bytes: { Self → List ℕ };

    /// The bytes of the file with this name, if it exposes them.
    ghost source_bytes: { Self → List ℕ → List ℕ };

    /// Standard input, of which nothing is read yet.
    fn input(&self) -> Self::Input
        ensures { Keeps (exposed (exposes self.now) (input_bytes self.now)) (Self.Input.remaining result) };

    /// Standard output, to which nothing is written yet.
    fn output(&self) -> Self::Output
        ensures { Keeps (exposed (exposes self.now) []) (Self.Output.contents result) };

    /// Opens a file to read it.
    fn open(&self, path: &str) -> io::Result<Self::Source>
        ensures { IfOk result (λ file. Keeps (exposed (exposes self.now) (source_bytes self.now path.now))
            (Self.Source.remaining file)) };

    /// Creates a file to write it, or empties it.
    fn create(&self, path: &str) -> io::Result<Self::Target>
        ensures { IfOk result (λ file. Keeps (exposed (exposes self.now) [])
            (Self.Target.contents file)) };
}
