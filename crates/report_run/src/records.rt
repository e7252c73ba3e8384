// Records saved.
ghost use Rattle.std.specs.Prelude.{◌≡◌, ◌≤◌, ℕ, Option, MatchResult, IfErr, OnOk};
ghost use Rattle.report_tool.specs.Saved.{Files, Makes, files_of};
ghost use Rattle.report_run.specs.States.{folder};
ghost use Rattle.report_run.specs.Saving.{IsKeptBack, MakesSome, IsSaved, IsUnsaved};

use crate::failures::Failure;
use region_report::Report;

/// Where the records of images are saved.
pub trait Records {
    // The names and contents of the files that were made, in order, where that is told.
    ghost made: { Self → Option Files };

    // How often `Unsaved` was answered.
    ghost faults: { Self → ℕ };

    /// Makes a file of each record, in order. `Unsaved` is a fault: one was not made, or there is no place for them.
    fn save(&mut self, report: &Report) -> Result<(), Failure>
        ensures made { MatchResult result
            (λ _. Makes (made self.old) (made self.new) (files_of report.now.origin report.now.records))
            (λ _. MakesSome report.now (made self.old) (made self.new)) }
        ensures no_fault { OnOk result (faults self.new ≡ faults self.old) }
        ensures why { IfErr result (IsKeptBack (faults self.old) (faults self.new)) }
        ensures later { faults self.old ≤ faults self.new };
}

/// Saves the records of a report, if that is asked for.
pub fn save_asked<F: Records>(saves: bool, report: &Report, records: &mut F) -> Result<(), Failure>
    ensures { let before = folder (F.made records.old) (F.faults records.old) in
        let after = folder (F.made records.new) (F.faults records.new) in
        MatchResult result (λ _. IsSaved saves report.now before after) (IsUnsaved saves report.now before after) }
{
    if saves {
        return records.save(report);
    }
    Ok(())
}
