// The text at the end of a script on a shared zone.
ghost use Rattle.std.specs.Prelude.{◌≡◌, ◌++◌, flat_map, IfOk, OnOk};
ghost use Rattle.shared_spec.specs.Histories.{History, shared_zone};
ghost use Rattle.shared_ring.specs.Seen.{IsLeftBy};
ghost use Rattle.script_spec.specs.SharedScripts.{open_text, shared_text};

use script::pieces::push_number;
use shared_ring::{OpenCall, Shared};
use std::alloc::{AllocError, Global};

fn push_open(text: &mut Vec<u8>, call: &OpenCall) -> Result<(), AllocError>
    ensures { OnOk result (text.new.items ≡ text.old.items ++ open_text call.now) }
{
    push_number(text, "open ", call.ticket)?;
    push_number(text, " place ", u64::from(call.place))?;
    push_number(text, " length ", u64::from(call.length))?;
    push_number(text, " stored ", u64::from(call.stored))?;
    text.push(b'\n')?;
    Ok(())
}

fn push_all_open(text: &mut Vec<u8>, calls: &[OpenCall]) -> Result<(), AllocError>
    ensures { OnOk result (text.new.items ≡ text.old.items ++ flat_map open_text calls.now) }
{
    for call in calls {
        push_open(text, call)?;
    }
    Ok(())
}

/// How many calls there were, are done and are open, the zone's words, and a line for each open call.
pub fn shared_text(alloc: Global, shared: &Shared) -> Result<Vec<u8>, AllocError>
    ensures { (h : History) → IsLeftBy h shared.now
        → IfOk result (λ text. text.items ≡ shared_text h.zone (shared_zone h)) }
{
    let calls = shared.reserved();
    let opened = shared.open_calls();
    let count = opened.len() as u64;
    let words = shared.words();
    let mut text = Vec::new(alloc);
    push_number(&mut text, "shared calls ", calls)?;
    push_number(&mut text, " done ", calls.saturating_sub(count))?;
    push_number(&mut text, " open ", count)?;
    push_number(&mut text, " start ", u64::from(words.start))?;
    push_number(&mut text, " size ", u64::from(words.size))?;
    text.push(b'\n')?;
    push_all_open(&mut text, &opened)?;
    Ok(text)
}
