// What a log says of the machine, and the signature, put onto a line.
ghost use Rattle.std.specs.Prelude.{◌≡◌, ◌∷◌, codes, OnOk};
ghost use Rattle.json.specs.Token.{key};
ghost use Rattle.report_spec.specs.Facts.{signature_told};
ghost use Rattle.region_report.specs.Machines.{as_machine};
ghost use Rattle.region_report.specs.Tellers.{told_in, end_in};
ghost use Rattle.report_json.specs.Schema.{bytes_data, machine_with, ended_machine, machine_data};
ghost use Rattle.report_json.specs.Tokens.{onto};

use crate::deaths::put_bytes;
use crate::tokens::Line;
use region_report::{
    End, Machine, RecordReport, Telling, console, end_told, machine_ended, machine_told,
    signature_of,
};
use std::alloc::{AllocError, Global};

fn put_with(line: &mut Line, machine: Machine<'_>) -> Result<(), AllocError>
    ensures { OnOk result (line.new ≡ onto (machine_with (as_machine machine.entry)) line.old) }
{
    line.begin_object()?;
    put_bytes(line, "cmdline", machine.cmdline)?;
    put_bytes(line, "hardware", machine.hardware)?;
    put_bytes(line, "kernel_offset", machine.offset)?;
    put_bytes(line, "modules", machine.modules)?;
    put_bytes(line, "version", machine.version)?;
    line.end_object()
}

fn put_ended(line: &mut Line, end: Option<End<'_>>) -> Result<(), AllocError>
    ensures { OnOk result (line.new ≡ onto (ended_machine (end_in end.entry)) line.old) }
{
    match end {
        Some(end) => put_with(line, machine_ended(&end)),
        None => line.null(),
    }
}

/// What the log of a death, or of an end without one, says of the machine, or null.
pub fn put_machine(
    line: &mut Line,
    records: &[RecordReport],
    told: Option<Telling<'_>>,
) -> Result<(), AllocError>
    ensures { OnOk result (line.new
        ≡ onto (machine_data records.now (told_in told.entry)) (key (codes "machine") ∷ line.old)) }
{
    line.key("machine")?;
    match told {
        Some(told) => put_with(line, machine_told(&told, console(records))),
        None => put_ended(line, end_told(records)),
    }
}

/// The signature of a death, or null.
pub fn put_signature(
    alloc: Global,
    line: &mut Line,
    told: Option<Telling<'_>>,
) -> Result<(), AllocError>
    ensures { OnOk result (line.new
        ≡ onto (bytes_data (signature_told (told_in told.entry))) (key (codes "signature") ∷ line.old)) }
{
    let signature = signature_of(alloc, told)?;
    put_bytes(line, "signature", signature.as_slice())
}
