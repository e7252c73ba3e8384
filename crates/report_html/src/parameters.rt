// The parameters of a layout, or the sizes of a storage.
ghost use Rattle.std.specs.Prelude.{◌≡◌, ◌++◌, OnOk};
ghost use Rattle.report_html.specs.Pieces.{parts};
ghost use Rattle.report_html.specs.Parameters.{parameter_parts, size_rows, parity_rows, ftrace_rows, text_parts, order_parts};
ghost use Rattle.report_html.specs.Parameters.{byte_order_parts};
ghost use Rattle.report_html.specs.Parameters.{region_rows, storage_rows, division_rows, parameters_parts};

use crate::pieces::{Piece, add};
use crate::words::PARAMETERS;
use psz_spec::Sizes;
use region_report::Division;
use std::alloc::AllocError;
use zone_spec::{ByteOrder, Order, Params};

fn add_parameter(
    pieces: &mut Vec<Piece<'_>>,
    key: &'static str,
    value: u64,
) -> Result<(), AllocError>
    ensures { OnOk result (parts pieces.new.items ≡ parts pieces.old.items ++ parameter_parts key.entry.now value) }
{
    add(
        pieces,
        &[
            Piece::Own("<tr><th scope=\"row\">"),
            Piece::Own(key),
            Piece::Own("</th><td class=\"n\">"),
            Piece::Number(value),
            Piece::Own("</td></tr>\n"),
        ],
    )
}

fn add_sizes(pieces: &mut Vec<Piece<'_>>, params: &Params) -> Result<(), AllocError>
    ensures { OnOk result (parts pieces.new.items ≡ parts pieces.old.items ++ size_rows params.now) }
{
    add_parameter(pieces, "mem_size", params.mem)?;
    add_parameter(pieces, "record_size", params.dump)?;
    add_parameter(pieces, "console_size", params.console)?;
    add_parameter(pieces, "ftrace_size", params.ftrace)?;
    add_parameter(pieces, "pmsg_size", params.pmsg)?;
    add_parameter(pieces, "block_size", params.block)?;
    Ok(())
}

fn add_parity(pieces: &mut Vec<Piece<'_>>, params: &Params) -> Result<(), AllocError>
    ensures { OnOk result (parts pieces.new.items ≡ parts pieces.old.items ++ parity_rows params.now) }
{
    add_parameter(pieces, "ecc", params.ecc)?;
    add_parameter(pieces, "ecc_dump", params.ecc_dump)?;
    add_parameter(pieces, "ecc_console", params.ecc_console)?;
    add_parameter(pieces, "ecc_ftrace", params.ecc_ftrace)?;
    add_parameter(pieces, "ecc_pmsg", params.ecc_pmsg)?;
    Ok(())
}

fn add_text(
    pieces: &mut Vec<Piece<'_>>,
    key: &'static str,
    text: &'static str,
) -> Result<(), AllocError>
    ensures { OnOk result (parts pieces.new.items ≡ parts pieces.old.items ++ text_parts key.entry.now text.entry.now) }
{
    add(
        pieces,
        &[
            Piece::Own("<tr><th scope=\"row\">"),
            Piece::Own(key),
            Piece::Own("</th><td>"),
            Piece::Own(text),
            Piece::Own("</td></tr>\n"),
        ],
    )
}

fn add_order(pieces: &mut Vec<Piece<'_>>, order: Order) -> Result<(), AllocError>
    ensures { OnOk result (parts pieces.new.items ≡ parts pieces.old.items ++ order_parts order) }
{
    add_text(pieces, "order", order.text())
}

fn add_byte_order(pieces: &mut Vec<Piece<'_>>, order: ByteOrder) -> Result<(), AllocError>
    ensures { OnOk result (parts pieces.new.items ≡ parts pieces.old.items ++ byte_order_parts order) }
{
    add_text(pieces, "byte_order", order.text())
}

fn add_ftrace(pieces: &mut Vec<Piece<'_>>, params: &Params) -> Result<(), AllocError>
    ensures { OnOk result (parts pieces.new.items ≡ parts pieces.old.items ++ ftrace_rows params.now) }
{
    add_parameter(pieces, "cpus", params.cpus)?;
    add_parameter(pieces, "ftrace_sig", u64::from(params.ftrace_sig))?;
    add_order(pieces, params.order)?;
    add_byte_order(pieces, params.byte_order)?;
    Ok(())
}

fn add_region(pieces: &mut Vec<Piece<'_>>, params: &Params) -> Result<(), AllocError>
    ensures { OnOk result (parts pieces.new.items ≡ parts pieces.old.items ++ region_rows params.now) }
{
    add_sizes(pieces, params)?;
    add_parity(pieces, params)?;
    add_ftrace(pieces, params)?;
    Ok(())
}

fn add_storage(pieces: &mut Vec<Piece<'_>>, sizes: &Sizes) -> Result<(), AllocError>
    ensures { OnOk result (parts pieces.new.items ≡ parts pieces.old.items ++ storage_rows sizes.now) }
{
    add_parameter(pieces, "total_size", sizes.total)?;
    add_parameter(pieces, "kmsg_size", u64::from(sizes.dump))?;
    add_parameter(pieces, "console_size", u64::from(sizes.console))?;
    add_parameter(pieces, "ftrace_size", u64::from(sizes.ftrace))?;
    add_parameter(pieces, "pmsg_size", u64::from(sizes.pmsg))?;
    add_parameter(pieces, "cpus", u64::from(sizes.cpus))?;
    Ok(())
}

fn add_rows(pieces: &mut Vec<Piece<'_>>, division: &Division) -> Result<(), AllocError>
    ensures { OnOk result (parts pieces.new.items ≡ parts pieces.old.items ++ division_rows division.now) }
{
    match division {
        Division::Region(params) => add_region(pieces, params),
        Division::Storage(sizes) => add_storage(pieces, sizes),
    }
}

/// Adds a table of the parameters.
pub fn add_parameters(pieces: &mut Vec<Piece<'_>>, division: &Division) -> Result<(), AllocError>
    ensures { OnOk result (parts pieces.new.items ≡ parts pieces.old.items ++ parameters_parts division.now) }
{
    add(pieces, &[Piece::Own(PARAMETERS)])?;
    add_rows(pieces, division)?;
    add(pieces, &[Piece::Own("</table></div>\n")])?;
    Ok(())
}
