//! Dumps and the cursor.

ghost use Rattle.zone_examples.specs.Dumps.{DumpsKept, BytesOfKeptDumps, CursorMovesAtLastStore, DumpKeepsFront};
ghost use Rattle.zone_examples.specs.Dumps.{DumpIsBusy, DumpAndConsoleCut};

/// Two dumps, kept over a boot; the record of one is erased.
pub fn dumps_kept()
    ensures { DumpsKept }
{}

/// The bytes of a dump zone that was erased, and of one that was kept.
pub fn bytes_of_kept_dumps()
    ensures { BytesOfKeptDumps }
{}

/// The cursor moves with a dump's last store, and a boot sets it back.
pub fn cursor_moves_at_last_store()
    ensures { CursorMovesAtLastStore }
{}

/// A body longer than its zone keeps its front.
pub fn dump_keeps_front()
    ensures { DumpKeepsFront }
{}

/// A call in any dump zone is in the way of a dump.
pub fn dump_is_busy()
    ensures { DumpIsBusy }
{}

/// A dump and an append, both cut by one stop.
pub fn dump_and_console_cut()
    ensures { DumpAndConsoleCut }
{}
