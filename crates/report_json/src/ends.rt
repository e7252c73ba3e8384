// How a log ends that tells of no death, put onto a line.
ghost use Rattle.std.specs.Prelude.{◌≡◌, ◌∷◌, codes, OnOk};
ghost use Rattle.json.specs.Token.{key};
ghost use Rattle.region_report.specs.Tellers.{told_in, as_ended, end_in};
ghost use Rattle.report_json.specs.Schema.{ending_text as text_of_ending, reason_text as text_of_reason, reason_data};
ghost use Rattle.report_json.specs.Schema.{end_with, ended_data, end_data};
ghost use Rattle.report_json.specs.Tokens.{onto};

use crate::deaths::put_said;
use crate::records::put_name;
use crate::tokens::Line;
use death_spec::Ending;
use region_report::{DumpReason, End, Origin, RecordReport, Telling, dump_reason, end_told};
use std::alloc::AllocError;

fn ending_text(ending: Ending) -> &'static str
    ensures { result.now ≡ text_of_ending ending }
{
    match ending {
        Ending::Restarted => "restarted",
        Ending::SwitchedOff => "switched_off",
        Ending::Reset => "sysrq",
        Ending::BrokenOff => "broken_off",
    }
}

fn reason_text(reason: DumpReason) -> &'static str
    ensures { result.now ≡ text_of_reason reason }
{
    match reason {
        DumpReason::Panic => "panic",
        DumpReason::Oops => "oops",
        DumpReason::Emergency => "emergency",
        DumpReason::Restart => "restart",
        DumpReason::Halt => "halt",
        DumpReason::PowerOff => "power_off",
        DumpReason::ShutDown => "shut_down",
    }
}

fn put_reason(line: &mut Line, reason: Option<DumpReason>) -> Result<(), AllocError>
    ensures { OnOk result (line.new ≡ onto (reason_data reason) (key (codes "reason") ∷ line.old)) }
{
    match reason {
        Some(reason) => line.text("reason", reason_text(reason)),
        None => line.none("reason"),
    }
}

fn put_with(line: &mut Line, origin: Origin, text: &[u8], end: &End<'_>) -> Result<(), AllocError>
    ensures { OnOk result (line.new ≡ onto (end_with origin text.now (as_ended end.now)) line.old) }
{
    let teller: &RecordReport = end.teller;
    line.begin_object()?;
    line.text("ending", ending_text(end.ended.ending))?;
    put_said(line, "line", text, end.ended.line)?;
    put_reason(line, dump_reason(text))?;
    put_name(line, "record", origin, teller.name)?;
    line.end_object()
}

fn put_ended(line: &mut Line, origin: Origin, end: Option<End<'_>>) -> Result<(), AllocError>
    ensures { OnOk result (line.new ≡ onto (ended_data origin (end_in end.entry)) line.old) }
{
    match end {
        Some(end) => {
            let teller: &RecordReport = end.teller;
            put_with(line, origin, teller.readable(), &end)
        }
        None => line.null(),
    }
}

/// How the log ends, if no record tells why the machine died, or null.
pub fn put_end(
    line: &mut Line,
    origin: Origin,
    records: &[RecordReport],
    told: Option<Telling<'_>>,
) -> Result<(), AllocError>
    ensures { OnOk result (line.new ≡ onto (end_data origin records.now (told_in told.entry)) (key (codes "end") ∷ line.old)) }
{
    line.key("end")?;
    match told {
        Some(_) => line.null(),
        None => put_ended(line, origin, end_told(records)),
    }
}
