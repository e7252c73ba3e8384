// The text of a layout.
ghost use Rattle.std.specs.Prelude.{◌≡◌, ◌++◌, ◌==◌, ◌&&◌, codes, decimal, OnOk, IfOk, length};
ghost use Rattle.script_spec.specs.Texts.{newline};
ghost use Rattle.command_spec.specs.Texts.{is_uniform, layout_line, layout_text, own_parity};
ghost use Rattle.ramoops_layout.specs.Laid.{params_of, zones_of};

use ramoops_layout::types::Layout;
use script::pieces::{push_number, push_zone};
use std::alloc::{AllocError, Global};
use zone_spec::{Kind, Zone};

fn push_parity(text: &mut Vec<u8>, zone: &Zone, uniform: bool) -> Result<(), AllocError>
    ensures { OnOk result (text.new.items ≡ text.old.items ++ own_parity uniform zone.now) }
{
    if uniform {
        return Ok(());
    }
    push_number(text, " parity ", u64::from(zone.parity))?;
    push_number(text, " block ", u64::from(zone.block))
}

fn push_line(text: &mut Vec<u8>, zone: &Zone, uniform: bool) -> Result<(), AllocError>
    ensures { OnOk result (text.new.items ≡ text.old.items ++ layout_line uniform zone.now) }
{
    push_zone(text, zone.name)?;
    push_number(text, " at ", u64::from(zone.at))?;
    push_number(text, " size ", u64::from(zone.size))?;
    push_number(text, " cap ", u64::from(zone.cap))?;
    push_number(text, " blocks ", u64::from(zone.blocks))?;
    push_parity(text, zone, uniform)?;
    text.push(b'\n')?;
    Ok(())
}

// Blocks of 128 bytes, and for each kind the parity of `ecc`.
fn is_uniform(layout: &Layout) -> bool
    ensures { result ≡ is_uniform (params_of layout.now) }
{
    let parity = layout.parity();
    layout.block() == 128
        && layout.parity_of(Kind::Dump) == parity
        && layout.parity_of(Kind::Console) == parity
        && layout.parity_of(Kind::Ftrace) == parity
        && layout.parity_of(Kind::Pmsg) == parity
}

// The first line.
fn push_head(text: &mut Vec<u8>, layout: &Layout) -> Result<(), AllocError>
    ensures { OnOk result (text.new.items ≡ text.old.items ++ codes "mem " ++ decimal
        (params_of layout.now).mem ++ codes " parity " ++ decimal (params_of layout.now).ecc
        ++ codes " zones " ++ decimal (length (zones_of layout.now)) ++ newline) }
{
    push_number(text, "mem ", u64::from(layout.mem()))?;
    push_number(text, " parity ", u64::from(layout.parity()))?;
    push_number(text, " zones ", layout.zones().len() as u64)?;
    text.push(b'\n')?;
    Ok(())
}

/// The text of a layout: a line for the whole, and one for each zone.
pub fn layout_text(alloc: Global, layout: &Layout) -> Result<Vec<u8>, AllocError>
    ensures { IfOk result (λ text. text.items ≡ layout_text (params_of layout.now) (zones_of layout.now)) }
{
    let uniform = is_uniform(layout);
    let mut text = Vec::new(alloc);
    push_head(&mut text, layout)?;
    for zone in layout.zones() {
        push_line(&mut text, zone, uniform)?;
    }
    Ok(text)
}
