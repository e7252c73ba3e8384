// How a log ends that tells of no death.
ghost use Rattle.std.specs.Prelude.{◌≡◌, nat_eq};
ghost use Rattle.std.specs.List.{starts_with};
ghost use Rattle.std.specs.Option.{option_copied};
ghost use Rattle.report_spec.specs.Ends.{end_by as end_by_record, end_told as end_told_by, reason_in as reason_in_rows};
ghost use Rattle.report_spec.specs.Ends.{reason_of, dump_words, ending_words, no_death_words, end_words};
ghost use Rattle.region_report.specs.Tellers.{as_ended, end_in, plain};

use crate::newest::{console, newest_dump};
use crate::shown::RecordReport;
use death::ending;
use death_spec::{Ended, Ending};
use report_spec::{DUMP_REASONS, DumpReason};

/// A record, and how what people read of it ends.
#[derive(Clone, Copy)]
pub struct End<'a> {
    pub teller: &'a RecordReport,
    pub ended: Ended,
}

fn end_by(teller: Option<&RecordReport>) -> Option<End<'_>>
    ensures { end_in result ≡ end_by_record (option_copied teller.entry) }
{
    let teller = teller?;
    let ended = ending(teller.readable())?;
    Some(End { teller, ended })
}

/// How the newest dump ends in which no line tells of a death. If there is none, or the kernel says nothing in it, how
/// the console ends.
#[tactic(auto, unfolding(report_spec::specs::Ends::end_told))]
pub fn end_told(records: &[RecordReport]) -> Option<End<'_>>
    ensures { end_in result ≡ end_told_by records.now }
{
    end_by(newest_dump(records)).or(end_by(console(records)))
}

fn begins(text: &[u8], words: &[u8]) -> bool
    ensures { result ≡ starts_with nat_eq text.now words.now }
{
    text.starts_with(words)
}

fn reason_in(rows: &[(DumpReason, &[u8])], text: &[u8]) -> Option<DumpReason>
    ensures { result ≡ reason_in_rows (plain rows.now) text.now }
{
    for row in rows {
        if begins(text, row.1) {
            return Some(row.0);
        }
    }
    None
}

/// Why the kernel made a dump, as its head says.
pub fn dump_reason(text: &[u8]) -> Option<DumpReason>
    ensures { result ≡ reason_of text.now }
{
    reason_in(DUMP_REASONS, text)
}

fn dump_text(reason: DumpReason) -> &'static str
    ensures { result.now ≡ dump_words reason }
{
    match reason {
        DumpReason::Panic => "died: of a panic; its line is not in the dump",
        DumpReason::Oops => "died: of an oops; its line is not in the dump",
        DumpReason::Emergency => "no panic: the kernel was told to restart in an emergency",
        DumpReason::Restart => "no panic: the kernel was told to restart",
        DumpReason::Halt => "no panic: the kernel was told to halt",
        DumpReason::PowerOff => "no panic: the kernel was told to power off",
        DumpReason::ShutDown => "no panic: the kernel was told to shut down",
    }
}

fn ending_text(ending: Ending) -> &'static str
    ensures { result.now ≡ ending_words ending }
{
    match ending {
        Ending::Restarted => "no death: an orderly restart",
        Ending::SwitchedOff => "no death: switched off or halted in order",
        Ending::Reset => "no death: restarted by sysrq",
        Ending::BrokenOff => {
            "no death: the log breaks off; the machine hung, lost power or was reset"
        }
    }
}

fn no_death_text(reason: Option<DumpReason>, ending: Ending) -> &'static str
    ensures { result.now ≡ no_death_words reason ending }
{
    match reason {
        Some(reason) => dump_text(reason),
        None => ending_text(ending),
    }
}

/// Why the kernel made the dump, or how the log ends.
pub fn end_text(end: &End<'_>) -> &'static str
    ensures { result.now ≡ end_words (as_ended end.now) }
{
    let teller: &RecordReport = end.teller;
    no_death_text(dump_reason(teller.readable()), end.ended.ending)
}
