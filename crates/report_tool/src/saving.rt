// The records of a report as files.
ghost use Rattle.std.specs.Prelude.{◌≡◌, ℕ, [], ◌∷◌, List, Option, MatchResult, OnOk, OnErr};
ghost use Rattle.outside.specs.Outside.{HasCause};
ghost use Rattle.report_spec.specs.Origins.{name_in};
ghost use Rattle.report_tool.specs.Saved.{Makes, MakesFirst, files_of};

use arrayvec::ArrayString;
use outside::Failed;
use region_report::{Origin, RecordReport, Report, file_name};

/// A folder in which files are made.
pub trait Folder {
    // The names and contents of the files that were made, in order, where the folder tells them.
    ghost made: { Self → Option (List (List ℕ × List ℕ)) };

    // How often it has failed.
    ghost faults: { Self → ℕ };

    /// Makes a file of this name and content. It is a fault where a file of this name stands already, which is then
    /// left as it is.
    fn make(&mut self, name: &str, content: &[u8]) -> Result<(), Failed>
        ensures made { OnOk result (Makes (made self.old) (made self.new) ((name.now, content.now) ∷ [])) }
        ensures kept { OnErr result (made self.new ≡ made self.old) }
        ensures cause { HasCause (faults self.old) (faults self.new) result };
}

fn save_record<F: Folder>(folder: &mut F, origin: Origin, held: &RecordReport) -> Result<(), Failed>
    ensures made { OnOk result (Makes (F.made folder.old) (F.made folder.new)
        ((name_in origin held.now.name, held.now.content) ∷ [])) }
    ensures kept { OnErr result (F.made folder.new ≡ F.made folder.old) }
    ensures cause { HasCause (F.faults folder.old) (F.faults folder.new) result }
{
    let mut name = ArrayString::new();
    file_name(origin, held.name, &mut name);
    folder.make(name.as_str(), held.content.as_slice())
}

/// Makes a file of each record, in order, under its name in a mounted pstore: that of a compressed dump has the text, if
/// all of it was read, and else the bytes as they stand under a name that ends in `.enc.z`. Ends at the first fault, and leaves the
/// files that were made before it.
pub fn save<F: Folder>(folder: &mut F, report: &Report) -> Result<(), Failed>
    ensures made { MatchResult result
        (λ _. Makes (F.made folder.old) (F.made folder.new) (files_of report.now.origin report.now.records))
        (λ _. MakesFirst report.now.origin report.now.records (F.made folder.old) (F.made folder.new)) }
    ensures cause { HasCause (F.faults folder.old) (F.faults folder.new) result }
{
    for held in report.records() {
        save_record(folder, report.origin(), held)?;
    }
    Ok(())
}
