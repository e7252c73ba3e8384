// Which record tells why the machine died, and how.
ghost use Rattle.std.specs.Prelude.{◌≡◌, ◌++◌, map, option_to_list, OnOk, IfOk};
ghost use Rattle.std.specs.Option.{option_copied};
ghost use Rattle.report_spec.specs.Packed.{readable};
ghost use Rattle.report_spec.specs.Deaths.{told_by, stamped, has_line, last_line, is_panic_beyond, tells_more, told_of};
ghost use Rattle.report_spec.specs.Deaths.{dump_told as told_by_dump, others_told as told_by_others};
ghost use Rattle.report_spec.specs.Deaths.{shared_time, death_time};
ghost use Rattle.report_spec.specs.Deaths.{death_told, is_same_dump as is_dump_named, other_told as told_by_other};
ghost use Rattle.region_report.specs.Tellers.{as_told, told_in};

use crate::newest::{console, newest_dump};
use crate::shown::RecordReport;
use death::{death, is_a, next_line, part};
use death_spec::{Death, Line, Mark};
use std::alloc::{AllocError, Global};
use zone_spec::{Name, Time};

/// A record, and why the machine died by what people read of it.
#[derive(Clone, Copy)]
pub struct Telling<'a> {
    pub teller: &'a RecordReport,
    pub death: Death,
}

fn told_by(teller: Option<&RecordReport>) -> Option<Telling<'_>>
    ensures { told_in result ≡ told_by (option_copied teller.entry) }
{
    let teller = teller?;
    let death = death(teller.readable())?;
    Some(Telling { teller, death })
}

fn stamped(text: &[u8], line: Line) -> &[u8]
    ensures { result.now ≡ stamped text.now line }
{
    part(text, line.stamp, line.end)
}

fn has_line(text: &[u8], words: &[u8]) -> bool
    ensures { result ≡ has_line text.now words.now }
{
    let mut at = 0;
    'lines: while let Some(line) = next_line(text, at) {
        if stamped(text, line) == words {
            return true;
        }
        at = line.next;
    }
    false
}

/// Whether a record has the telling line too, from its stamp on.
pub fn has_telling_line(entry: &RecordReport, told: &Telling<'_>) -> bool
    ensures { result ≡ has_line (readable entry.now)
        (stamped (readable (as_told told.now).teller) told.now.death.telling) }
{
    has_line(
        entry.readable(),
        stamped(told.teller.readable(), told.death.telling),
    )
}

fn shared_time(told: &Telling<'_>, dump: Option<&RecordReport>) -> Option<Time>
    ensures { result ≡ shared_time (as_told told.now) (option_copied dump.entry) }
{
    let dump = dump?;
    if has_telling_line(dump, told) {
        dump.time
    } else {
        None
    }
}

/// When the machine died: the date of the record that tells, or, as a console has none, that of this dump if it has
/// the telling line too.
pub fn death_time(told: &Telling<'_>, dump: Option<&RecordReport>) -> Option<Time>
    ensures { result ≡ death_time (as_told told.now) (option_copied dump.entry) }
{
    let teller: &RecordReport = told.teller;
    match teller.time {
        Some(time) => Some(time),
        None => shared_time(told, dump),
    }
}

fn last_line(death: Death) -> Line
    ensures { result ≡ last_line death death.second }
{
    match death.second {
        Some(panic) => panic,
        None => death.telling,
    }
}

fn is_panic_beyond(dump: &RecordReport, text: &[u8], line: Line) -> bool
    ensures { result ≡ is_panic_beyond dump.now text.now line }
{
    is_a(text, Mark::Panic, line) && !has_line(dump.readable(), stamped(text, line))
}

// Whether the console ends in a panic that the dump lacks.
fn tells_more(console: &Telling<'_>, dump: &Telling<'_>) -> bool
    ensures { result ≡ tells_more (as_told console.now) (as_told dump.now) }
{
    let text = console.teller.readable();
    is_panic_beyond(dump.teller, text, last_line(console.death))
}

fn told_of<'a>(dump: Option<Telling<'a>>, console: Option<Telling<'a>>) -> Option<Telling<'a>>
    ensures { told_in result ≡ told_of (told_in dump.entry) (told_in console.entry) }
{
    let Some(dump) = dump else {
        return console;
    };
    match console {
        Some(console) if tells_more(&console, &dump) => Some(console),
        _ => Some(dump),
    }
}

/// Which of the records tells why the machine died, and how; `None` if no record tells. It takes no memory, and time
/// linear in the newest dump and the console.
#[tactic(auto, unfolding(report_spec::specs::Deaths::death_told))]
pub fn death_told(records: &[RecordReport]) -> Option<Telling<'_>>
    ensures { told_in result ≡ death_told records.now }
{
    told_of(told_by(newest_dump(records)), told_by(console(records)))
}

pub fn is_same_dump(name: Name, other: Name) -> bool
    ensures { result ≡ is_dump_named name other }
{
    match (name, other) {
        (Name::Dump { index, .. }, Name::Dump { index: number, .. }) => index == number,
        _ => false,
    }
}

/// Why the machine died by another record than the dump of this name.
pub fn other_told(name: Name, entry: &RecordReport) -> Option<Telling<'_>>
    ensures { told_in result ≡ told_by_other name entry.now }
{
    if is_same_dump(name, entry.name) {
        return None;
    }
    let death = death(entry.readable())?;
    Some(Telling {
        teller: entry,
        death,
    })
}

// Why the machine died by another dump than that of this name.
fn dump_told(name: Name, entry: &RecordReport) -> Option<Telling<'_>>
    ensures { told_in result ≡ told_by_dump name entry.now.name entry.now }
{
    match entry.name {
        Name::Dump { .. } => other_told(name, entry),
        Name::Console | Name::Pmsg | Name::Ftrace => None,
    }
}

fn push_told<'a>(
    tellings: &mut Vec<Telling<'a>>,
    told: Option<Telling<'a>>,
) -> Result<(), AllocError>
    ensures { OnOk result (map as_told tellings.new.items
        ≡ map as_told tellings.old.items ++ option_to_list (told_in told.entry)) }
{
    if let Some(told) = told {
        tellings.push(told)?;
    }
    Ok(())
}

/// The deaths that other dumps than the one of this name tell of, in the order of the records. Takes time linear in
/// the texts of the dumps.
pub fn others_told<'a>(
    alloc: Global,
    name: Name,
    records: &'a [RecordReport],
) -> Result<Vec<Telling<'a>>, AllocError>
    ensures { IfOk result (λ tellings. map as_told tellings.items ≡ told_by_others name records.now) }
{
    let mut tellings = Vec::new(alloc);
    for entry in records {
        push_told(&mut tellings, dump_told(name, entry))?;
    }
    Ok(tellings)
}
