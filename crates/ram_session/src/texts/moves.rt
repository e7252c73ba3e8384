// What a move tells of each record.
ghost use Rattle.std.specs.Prelude.{◌≡◌, ◌++◌, if◌then◌else◌, codes, flat_map, IfOk, OnOk};
ghost use Rattle.ramoops_layout.specs.Laid.{zones_of};
ghost use Rattle.prz_read.specs.Saving.{saved};
ghost use Rattle.script_spec.specs.Texts.{move_text};
ghost use Rattle.ram_session.specs.Entries.{told_text};

use super::records::push_named;
use prz_read::Logs;
use pstore_records::{Move, moves};
use ramoops_layout::types::Layout;
use script::pieces::push_number;
use std::alloc::{AllocError, Global};

// What becomes of a record that fits, or does not.
fn fate(fits: bool) -> &'static str
    ensures { result.now ≡ (if fits then codes "moved " else codes "left ") }
{
    if fits { "moved " } else { "left " }
}

fn push_move(text: &mut Vec<u8>, told: &Move) -> Result<(), AllocError>
    ensures { OnOk result (text.new.items ≡ text.old.items ++ told_text told.now) }
{
    text.extend_from_slice(fate(told.fits).as_bytes())?;
    push_named(text, told.name, told.len)?;
    push_number(text, " corrected ", told.corrected)?;
    push_number(text, " bad ", told.bad)?;
    text.push(b'\n')?;
    Ok(())
}

fn push_moves(text: &mut Vec<u8>, moves: &[Move]) -> Result<(), AllocError>
    ensures { OnOk result (text.new.items ≡ text.old.items ++ flat_map told_text moves.now) }
{
    for told in moves {
        push_move(text, told)?;
    }
    Ok(())
}

/// What becomes of each listed record where an image of `from` bytes is moved to one of this layout, of `to` bytes.
pub fn move_text(
    alloc: Global,
    from: u32,
    to: u32,
    layout: &Layout,
    logs: &Logs,
) -> Result<Vec<u8>, AllocError>
    ensures { IfOk result (λ text. text.items ≡ move_text from to (zones_of layout.now) (saved logs.now)) }
{
    let moves = moves(alloc, logs, layout)?;
    let mut text = Vec::new(alloc);
    push_number(&mut text, "move ", u64::from(from))?;
    push_number(&mut text, " to ", u64::from(to))?;
    push_number(&mut text, " records ", moves.len() as u64)?;
    text.push(b'\n')?;
    push_moves(&mut text, &moves)?;
    Ok(text)
}
