// What escaped bytes are, what the lines of a log and the runs of a picture are, that each dump is counted once, that
// the newest records come first, and a worked picture.
ghost use Rattle.std.specs.Prelude.{◌≡◌, ℕ, ◌+◌, List, [], ◌∷◌, length, filter, flat_map};
ghost use Rattle.std.specs.List.{sum_by};
ghost use Rattle.std.specs.List.Sorted.{IsPermutation, IsSortedBy, IsStableBy};
ghost use Rattle.zone_spec.specs.Parts.{AreBytes};
ghost use Rattle.report_spec.specs.Escaped.{IsText, escaped};
ghost use Rattle.report_spec.specs.Packed.{RecordShown};
ghost use Rattle.zone_spec.specs.declared.PartState.{PartState};
ghost use Rattle.zone_spec.specs.declared.PartState.TheVariants.{Read, Bad};
ghost use Rattle.death_spec.specs.Lines.{lines_from};
ghost use Rattle.report_html.specs.Logs.{line_bytes};
ghost use Rattle.report_html.specs.Order.{goes_before, newest_first};
ghost use Rattle.report_html.specs.Pictures.{runs};
ghost use Rattle.report_html.specs.Causes.{CrashShown, has_line_of, rows_of, has_no_row};
ghost use Rattle.report_html.specs.Covers.{Cover, states_of};

/// Escaped bytes are text: no markup of a page comes from them, whatever they are, and each of them is visible.
pub fn escaped_is_text()
    ensures { (bytes : List ℕ) → AreBytes bytes → IsText (escaped bytes) }
{}

/// The lines of a log, each with its newline, are the log: a page leaves out none of its bytes.
pub fn a_log_is_its_lines()
    ensures { (text : List ℕ) → flat_map (line_bytes text) (lines_from text 0) ≡ text }
{}

/// The runs of the blocks cover them, from the first to the last, in order. None is empty, neighbours read differently,
/// and each block reads as its run does.
pub fn runs_cover_the_blocks()
    ensures cover { (states : List PartState) → Cover 0 (length states) (runs 0 states) }
    ensures states { (states : List PartState) → states_of (runs 0 states) ≡ states }
{}

/// The rows of the table of dumps, with the last one, count each dump once.
pub fn each_dump_is_counted_once()
    ensures { (crashes : List CrashShown)
        → sum_by (λ (first : CrashShown). length (filter (has_line_of first) crashes)) (rows_of crashes)
        + length (filter (has_no_row (rows_of crashes)) crashes) ≡ length crashes }
{}

/// The list of records on a page has them all. No record is newer than one that stands before it, and those of which none
/// is newer stand as they did.
pub fn the_newest_come_first()
    ensures all { (records : List RecordShown) → IsPermutation records (newest_first records) }
    ensures sorted { (records : List RecordShown) → IsSortedBy goes_before (newest_first records) }
    ensures stable { (records : List RecordShown) → IsStableBy goes_before records (newest_first records) }
{}

/// Six blocks, of which two neighbours are clean and two bad, make four runs.
pub fn six_blocks_make_four_runs()
    ensures { runs 0 (Read 0 ∷ Read 0 ∷ Read 2 ∷ Read 1 ∷ Bad ∷ Bad ∷ [])
        ≡ record { from = 0; to = 2; state = Read 0 } ∷ record { from = 2; to = 3; state = Read 2 }
        ∷ record { from = 3; to = 4; state = Read 1 } ∷ record { from = 4; to = 6; state = Bad } ∷ [] }
{}
