//! Where reports are kept, each under a name.

use std::io::{self, Write};

/// Opens a file for each report, and keeps it under the report's name when all of it is written.
pub trait ReportFiles {
    ghost use Rattle.std.specs.Prelude.{◌≡◌, ◌∷◌, [], ℕ, List, Option, IfOk, OnOk, OnErr};
    ghost use Rattle.report_files.specs.Deeds.{Deed, Does, IsEmpty};
    ghost use Rattle.report_files.specs.Deeds.Deed.{Opened, Kept, NotKept, GivenUp};

    /// What a report is written to.
    type File: Write + Drop;

    /// What was done with files, if there is an account of it.
    ghost deeds: { Self → Option (List Deed) };

    /// Opens an empty file for this name. What stands under the name, if something does, stays.
    fn open(&mut self, name: &str) -> io::Result<Self::File>
        ensures opened { OnOk result (Does (deeds self.old) (deeds self.new) (Opened name.now ∷ [])) }
        ensures empty { IfOk result (λ file. IsEmpty (Self.File.contents file)) }
        ensures refused { OnErr result (Does (deeds self.old) (deeds self.new) []) };

    /// Keeps what stands in a file that was opened for this name: from now on it stands under the name.
    fn keep(&mut self, name: &str, file: &Self::File) -> io::Result<()>
        ensures kept { OnOk result (Does (deeds self.old) (deeds self.new)
            (Kept name.now (Self.File.contents file.now) ∷ [])) }
        ensures refused { OnErr result (Does (deeds self.old) (deeds self.new) (NotKept name.now ∷ [])) };

    /// Gives up a file that was opened for this name: what stands under the name stays.
    fn give_up(&mut self, name: &str, file: &Self::File)
        ensures { Does (deeds self.old) (deeds self.new) (GivenUp name.now ∷ []) };
}
