//! Worked rows on storages that Linux 6.1 wrote, with values typed by hand: how storages are divided, headers of dumps,
//! states of zones, logs of rings, and what the next boot lists.
#![tactic(auto)]

ghost use Rattle.psz_examples.specs.Layouts.{DumpsAloneRow, AllKindsRow, OddPlaceRow, RestUnusedRow, NoRoomRow};
ghost use Rattle.psz_examples.specs.Layouts.{NoDumpZoneRow, UnevenRow, MoreThanCpusRow, LeftOverRow, MostRow};
ghost use Rattle.psz_examples.specs.Layouts.{TotalSmallRow, NoSizeRow, TotalUnevenRow, FtraceSmallRow, HeadersAloneRow};
ghost use Rattle.psz_examples.specs.Headers.{WideHeaderRow, X86HeaderRow, ErasedRow, UnwrittenRow, OvertopRow};
ghost use Rattle.psz_examples.specs.Headers.{NoDumpRow, ShortDumpRow, NoDumpEmptyRow, HeaderAloneRow, FilledRow};
ghost use Rattle.psz_examples.specs.Headers.{OneMoreRow, BigHeaderRow, BigNarrowHeaderRow, BigFilledRow, BigOneMoreRow};
ghost use Rattle.psz_examples.specs.Headers.{BigErasedRow, BigAsLittleRow, LittleAsBigRow};
ghost use Rattle.psz_examples.specs.Rings.{WrappedRow, NotYetRow, FullRow, BeyondRow, NotYetStateRow, StartOvertopRow};
ghost use Rattle.psz_examples.specs.Rings.{ConsoleRow, FtraceRow, OtherKindRow, BigWrappedRow, BigRingRow};
ghost use Rattle.psz_examples.specs.Rings.{BigBeyondRow, BigConsoleRow};
ghost use Rattle.psz_examples.specs.Listings.{ListingRow, TotalRow, NegativeRow, UnknownRow, NameRow, NextRow};
ghost use Rattle.psz_examples.specs.Listings.{AllListedRow, ErasedCountsRow, NegativeTimeRow, PanicCountRow};
ghost use Rattle.psz_examples.specs.Listings.{BigListedRow, BigNextRow, OtherOrderListsNothingRow};
ghost use Rattle.psz_examples.specs.Failures.{ShortDumpFaultRow, EmptyPackedRow, PackedRow, StartBeyondRow};
ghost use Rattle.psz_examples.specs.Failures.{PassedOverRow, OthersListedRow, PartsRow, PackedNameRow, RingNameRow};
ghost use Rattle.psz_examples.specs.Marks.{NoDumpRow as NoDumpMarkRow};
ghost use Rattle.psz_examples.specs.Marks.{MarksRow, TooLongRow, JustFitsRow, StepRow, AllShownRow, OneDumpRow};
ghost use Rattle.psz_examples.specs.Marks.{OneSmallRow, OneLongRow, FirstMissingRow, WideMachineRow, X86MachineRow};
ghost use Rattle.psz_examples.specs.Marks.{BigMarksRow, LittleOrderRow, BigOrderRow, FirstOrderRow, OtherNoMarkRow};
ghost use Rattle.psz_examples.specs.Marks.{MixedMagicRow, NoMarkRow, RestBeforeRow, OddDumpRow};
ghost use Rattle.psz_examples.specs.Marks.{NoMachineRow, KibRow, FiveKibRow, TenKibRow, OddKibRow, NoKibRow};

/// Dumps alone; all four kinds; ftrace that does not divide by the processors; what is left over; and sizes that no
/// kernel takes.
pub fn layouts()
    ensures dumps_alone { DumpsAloneRow }
    ensures all_kinds { AllKindsRow }
    ensures odd_place { OddPlaceRow }
    ensures rest_unused { RestUnusedRow }
    ensures no_room { NoRoomRow }
    ensures no_dump_zone { NoDumpZoneRow }
    ensures uneven { UnevenRow }
    ensures more_than_cpus { MoreThanCpusRow }
    ensures left_over { LeftOverRow }
    ensures most { MostRow }
    ensures total_small { TotalSmallRow }
    ensures no_size { NoSizeRow }
    ensures total_uneven { TotalUnevenRow }
    ensures ftrace_small { FtraceSmallRow }
    ensures headers_alone { HeadersAloneRow }
{}

/// The headers of dumps of a 64-bit kernel, of one of x86 of 32 bits and of big-endian ones of 64 and 32 bits, and what
/// a boot takes dump zones for.
pub fn headers()
    ensures wide { WideHeaderRow }
    ensures x86 { X86HeaderRow }
    ensures erased { ErasedRow }
    ensures unwritten { UnwrittenRow }
    ensures overtop { OvertopRow }
    ensures no_dump { NoDumpRow }
    ensures short { ShortDumpRow }
    ensures no_dump_empty { NoDumpEmptyRow }
    ensures header_alone { HeaderAloneRow }
    ensures filled { FilledRow }
    ensures one_more { OneMoreRow }
    ensures big_header { BigHeaderRow }
    ensures big_narrow_header { BigNarrowHeaderRow }
    ensures big_filled { BigFilledRow }
    ensures big_one_more { BigOneMoreRow }
    ensures big_erased { BigErasedRow }
    ensures big_as_little { BigAsLittleRow }
    ensures little_as_big { LittleAsBigRow }
{}

/// Rings that went round, that did not, that are just full, and one that no kernel reads, in either order of bytes.
pub fn rings()
    ensures wrapped { WrappedRow }
    ensures not_yet { NotYetRow }
    ensures full { FullRow }
    ensures beyond { BeyondRow }
    ensures not_yet_state { NotYetStateRow }
    ensures start_overtop { StartOvertopRow }
    ensures console { ConsoleRow }
    ensures ftrace { FtraceRow }
    ensures other_kind { OtherKindRow }
    ensures big_wrapped { BigWrappedRow }
    ensures big_ring_state { BigRingRow }
    ensures big_beyond { BigBeyondRow }
    ensures big_console { BigConsoleRow }
{}

/// Storages of four zones as the next boot lists them, one of a big-endian machine, and their next zones; lines and
/// names.
pub fn listings()
    ensures listing { ListingRow }
    ensures total { TotalRow }
    ensures negative { NegativeRow }
    ensures unknown { UnknownRow }
    ensures name { NameRow }
    ensures next { NextRow }
    ensures all_listed { AllListedRow }
    ensures erased_counts { ErasedCountsRow }
    ensures negative_time { NegativeTimeRow }
    ensures panic_count { PanicCountRow }
    ensures big_listed { BigListedRow }
    ensures big_next { BigNextRow }
    ensures other_order { OtherOrderListsNothingRow }
{}

/// Zones at which the kernel fails, what is listed beside them, and where the logs of records stand.
pub fn failures()
    ensures short_dump { ShortDumpFaultRow }
    ensures empty_packed { EmptyPackedRow }
    ensures packed { PackedRow }
    ensures start_beyond { StartBeyondRow }
    ensures passed_over { PassedOverRow }
    ensures others_listed { OthersListedRow }
    ensures parts { PartsRow }
    ensures packed_name { PackedNameRow }
    ensures ring_name { RingNameRow }
{}

/// The sizes, the machine and the order of bytes that bytes show, and sizes in KiB.
pub fn marks()
    ensures marks { MarksRow }
    ensures too_long { TooLongRow }
    ensures just_fits { JustFitsRow }
    ensures step { StepRow }
    ensures all_shown { AllShownRow }
    ensures one_dump { OneDumpRow }
    ensures one_small { OneSmallRow }
    ensures one_long { OneLongRow }
    ensures first_missing { FirstMissingRow }
    ensures no_dump { NoDumpMarkRow }
    ensures wide_machine { WideMachineRow }
    ensures x86_machine { X86MachineRow }
    ensures no_machine { NoMachineRow }
    ensures kib { KibRow }
    ensures five_kib { FiveKibRow }
    ensures ten_kib { TenKibRow }
    ensures odd_kib { OddKibRow }
    ensures no_kib { NoKibRow }
    ensures big_marks { BigMarksRow }
    ensures little_order { LittleOrderRow }
    ensures big_order { BigOrderRow }
    ensures first_order { FirstOrderRow }
    ensures other_no_mark { OtherNoMarkRow }
    ensures mixed_magic { MixedMagicRow }
    ensures no_mark { NoMarkRow }
    ensures rest_before { RestBeforeRow }
    ensures odd_dump { OddDumpRow }
{}
