//! The laws of scripts, of either store. Each law is a function whose contract it is.
#![tactic(auto)]

ghost use Rattle.script_laws.specs.Steps.{StepsAddUp, StepsEnd, CallsKeepLogs, NoStepsLeaveState, FinishIsSteps};
ghost use Rattle.script_laws.specs.Steps.{MakeIsBeginAndSteps};
ghost use Rattle.script_laws.specs.Scripts.{ScriptStatesAreSound, ScriptsReadLastWritten};
ghost use Rattle.script_laws.specs.RamScripts.{RamScriptsAreSessions, ScriptsReadWritten};
ghost use Rattle.script_laws.specs.Crashes.{CrashesAreToldWhole};
ghost use Rattle.script_laws.specs.SharedScripts.{SharedScriptsReadFullLog};
ghost use Rattle.script_laws.specs.BlkScripts.{ScriptsAreSessions, EveryBootListsReading, WholeScriptListsTold};
ghost use Rattle.script_laws.specs.BlkScripts.{EarlyCutScriptListsBefore};

/// Every state that a script leads to is sound.
pub fn script_states_are_sound()
    ensures { ScriptStatesAreSound }
{}

/// At each boot of a script each idle zone within bounds reads the last bytes written since its erasure that fit, and
/// in a zone whose call a stop cut only touched blocks and the header, both reported, make a difference.
pub fn scripts_read_last_written()
    ensures { ScriptsReadLastWritten }
{}

/// A script on the ram store is the session of its lines' operations, up to the first refused line.
pub fn ram_scripts_are_sessions()
    ensures { RamScriptsAreSessions }
{}

/// Where the machine is off behind a script, the next boot reads of each idle zone within bounds the last bytes that
/// the script's operations wrote since the zone's erasure, as many as it holds.
pub fn scripts_read_written()
    ensures { ScriptsReadWritten }
{}

/// A crash's dump has its whole body after the time line.
pub fn crashes_are_told_whole()
    ensures { CrashesAreToldWhole }
{}

/// Some steps of a flight and then one more are so many and one.
pub fn steps_add_up()
    ensures { StepsAddUp }
{}

/// Where no further step of a flight can be made, further steps change nothing.
pub fn steps_end()
    ensures { StepsEnd }
{}

/// Calls and steps leave the saved logs.
pub fn calls_keep_logs()
    ensures { CallsKeepLogs }
{}

/// No steps of a flight leave a sound state as it is.
pub fn no_steps_leave_state()
    ensures { NoStepsLeaveState }
{}

/// A flight is finished by as many steps as stores are left.
pub fn finish_is_steps()
    ensures { FinishIsSteps }
{}

/// A call is made by its begin and the steps that are left.
pub fn make_is_begin_and_steps()
    ensures { MakeIsBeginAndSteps }
{}

/// A script on the block store is the session of its lines' operations.
pub fn scripts_are_sessions()
    ensures { ScriptsAreSessions }
{}

/// After any lines of a script on the block store, a boot lists the reading of the store's bytes as they then stand.
pub fn every_boot_lists_reading()
    ensures { EveryBootListsReading }
{}

/// Where no byte was dropped since the last boot, the next one lists of each ring the last bytes that the script's
/// lines told it since then, or since its erasure where that came later, as many as the ring holds.
pub fn whole_script_lists_told()
    ensures { WholeScriptListsTold }
{}

/// Where the first line that is cut since the last boot is a `write` to a ring that is not full, and the cut falls
/// among its data bytes before its first header, the next boot lists of that ring what it would have listed before that
/// line.
pub fn early_cut_script_lists_before()
    ensures { EarlyCutScriptListsBefore }
{}

/// After a script on a shared zone that ends with no call open, the zone reads the last bytes of its log before the
/// script and of all payloads that the lines reserve. With calls open it differs from that at most at their places. All
/// bytes that are not the zone's stay.
pub fn shared_scripts_read_full_log()
    ensures { SharedScriptsReadFullLog }
{}
