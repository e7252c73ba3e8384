// Worked rows.
ghost use Rattle.storage_words.specs.Rows.{WordsRow, NoWordRow, LargestRow, TooLargeRow, ForeignRow, TwiceRow, BareRow};

/// Sizes in words, and faulty words.
pub fn words_compute()
    ensures words { WordsRow }
    ensures no_word { NoWordRow }
    ensures largest { LargestRow }
    ensures too_large { TooLargeRow }
    ensures foreign { ForeignRow }
    ensures twice { TwiceRow }
    ensures bare { BareRow }
{}
