// What the words of a command line are: a law, and worked lines.
ghost use Rattle.std.specs.Prelude.{◌≡◌, ℕ, false, List, [], ◌∷◌, ◌++◌, All, codes};
ghost use Rattle.std.specs.List.{slice_split};
ghost use Rattle.kernel_line.specs.declared.layout.Module.{Module};
ghost use Rattle.kernel_line.specs.Line.{is_white, is_quote, words_from, layout_words};

/// The words of a line without quotes are what stands between white space.
pub fn white_space_separates()
    ensures { (line : List ℕ) → All (λ b. is_quote b ≡ false) line → words_from false line ≡ slice_split is_white line }
{}

/// A tab and a newline separate words, and so do two spaces.
pub fn tabs_and_newlines_separate()
    ensures { layout_words Module.Ramoops
        (codes "quiet" ++ 9 ∷ codes "ramoops.ecc=1" ++ 10 ∷ codes "ramoops.mem_size=65536  ro" ++ 10 ∷ [])
        ≡ codes "ramoops.ecc=1" ∷ codes "ramoops.mem_size=65536" ∷ [] }
{}

/// A word in quotes, and a value in quotes: the quotes go.
pub fn quotes_go()
    ensures { layout_words Module.Ramoops
        (34 ∷ codes "ramoops.ecc=1" ++ 34 ∷ codes " ramoops.mem_size=" ++ 34 ∷ codes "65536" ++ 34 ∷ [])
        ≡ codes "ramoops.ecc=1" ∷ codes "ramoops.mem_size=65536" ∷ [] }
{}

/// White space within quotes separates nothing: this line has one parameter of the layout.
pub fn quotes_protect()
    ensures { layout_words Module.Ramoops (codes "dyndbg=" ++ 34 ∷ codes "file a ramoops.ecc=2 +p" ++ 34 ∷ codes " ramoops.ecc=1")
        ≡ codes "ramoops.ecc=1" ∷ [] }
{}

/// Quotes behind other bytes of a value stay.
pub fn inner_quotes_stay()
    ensures { layout_words Module.Ramoops (codes "ramoops.ecc=1" ++ 34 ∷ 34 ∷ []) ≡ (codes "ramoops.ecc=1" ++ 34 ∷ 34 ∷ []) ∷ [] }
{}

/// A `-` of a name reads as `_`, and one of a value stays.
pub fn dashes_are_underscores()
    ensures { layout_words Module.Ramoops (codes "ramoops.mem-size=1-2 ramoops.max-reason=2") ≡ codes "ramoops.mem_size=1-2" ∷ [] }
{}

/// What stands behind `--` is init's.
pub fn init_has_the_rest()
    ensures { layout_words Module.Ramoops (codes "ramoops.ecc=1 -- ramoops.mem_size=65536") ≡ codes "ramoops.ecc=1" ∷ [] }
{}

/// Those of pstore_blk say how it divides a storage, but for the device, the effort and the reasons.
pub fn a_storage_has_words_too()
    ensures { layout_words Module.PstoreBlk
        (codes "pstore_blk.blkdev=/dev/sda9 pstore_blk.best-effort=1 ramoops.ecc=1 pstore-blk.kmsg-size=64")
        ≡ codes "pstore_blk.kmsg_size=64" ∷ [] }
{}
