// What the rows of a text are.
ghost use Rattle.std.specs.Prelude.{◌≡◌, ℕ, ◌≤◌, ◌==◌, false, List, [], length, All};
ghost use Rattle.std.specs.List.{slice_split};
ghost use Rattle.report_spec.specs.Visible.{visible_byte};
ghost use Rattle.report_text.specs.Tails.{columns, rows_from};
ghost use Rattle.report_text.specs.Rows.{width, AreCutFrom};

/// The rows of bytes are their lines, each cut into rows: no byte is lost, added or moved to another line.
pub fn rows_are_the_lines()
    ensures { (bytes : List ℕ) → AreCutFrom (slice_split (λ b. b == 10) bytes) (rows_from [] 0 bytes) }
{}

/// No row takes more than 76 columns.
pub fn rows_fit()
    ensures { (bytes : List ℕ) → All (λ row. width row ≤ 76) (rows_from [] 0 bytes) }
{}

/// A byte takes as many columns as it is shown with; a tab, which is shown as it is, may take 8.
pub fn columns_are_those_shown()
    ensures { (b : ℕ) → (b == 9) ≡ false → columns b ≡ length (visible_byte b) }
{}
