// What colours leave of a text.
ghost use Rattle.std.specs.Prelude.{◌≡◌, ℕ, List};
ghost use Rattle.std.specs.List.{slice_split, join_with_byte};
ghost use Rattle.report_colours.specs.Colours.{is_newline};

/// The lines of which a coloured text is made are the text's, with a newline between each two.
pub fn lines_are_the_text()
    ensures { (text : List ℕ) → join_with_byte 10 (slice_split is_newline text) ≡ text }
{}
