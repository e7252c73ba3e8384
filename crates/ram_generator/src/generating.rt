// The whole session of a number.
ghost use Rattle.std.specs.Prelude.{◌≡◌, ◌++◌, List, length, replicate, decimal, IfOk, OnOk};
ghost use Rattle.zone_spec.specs.declared.Zone.{Zone};
ghost use Rattle.machine_spec.specs.States.{Session};
ghost use Rattle.machine_spec.specs.Stop.{session_image};
ghost use Rattle.ramoops_layout.specs.Laid.{params_of, zones_of};
ghost use Rattle.script_spec.specs.Generated.{generated, summary as summary_of};
ghost use Rattle.ram_generator.specs.Counting.{counted, counts_text};

use crate::counts::Counts;
use crate::rounds::{RoundPlan, boot_up, rounds};
use crate::{Draws, Targets};
use itoa::Buffer;
use outside::Bytes;
use ramoops::Off;
use ramoops_layout::types::Layout;
use std::alloc::{AllocError, Global};

fn zeros(alloc: Global, count: u32) -> Result<Bytes, AllocError>
    ensures { IfOk result (λ bytes. bytes ≡ replicate count 0) }
{
    let mut bytes = Vec::new(alloc);
    'bytes: for _ in 0..count {
        bytes.push(0)?;
    }
    Ok(Bytes::from_vec(bytes))
}

fn push_count(text: &mut Vec<u8>, words: &str, count: u128) -> Result<(), AllocError>
    ensures { OnOk result (text.new.items ≡ text.old.items ++ words.now ++ decimal count) }
{
    text.extend_from_slice(words.as_bytes())?;
    let mut buffer = Buffer::new();
    text.extend_from_slice(buffer.format(count).as_bytes())
}

fn push_counts(text: &mut Vec<u8>, counts: &Counts) -> Result<(), AllocError>
    ensures { OnOk result (text.new.items ≡ text.old.items ++ counts_text counts.now) }
{
    push_count(text, " calls ", counts.calls)?;
    push_count(text, " stores ", counts.stores)?;
    push_count(text, " flips ", counts.flips)?;
    push_count(text, " as-told ", counts.as_told)?;
    push_count(text, " differs ", counts.differs)?;
    text.push(b'\n')?;
    Ok(())
}

// The summary of n: how many zones there are, and what was counted.
fn summary(alloc: Global, n: u32, zones: usize, counts: &Counts) -> Result<Vec<u8>, AllocError>
    ensures { IfOk result (λ text. (layout : List Zone) (session : Session) → length layout ≡ zones
        → text.items ≡ summary_of n layout (counted session counts.now)) }
{
    let mut text = Vec::new(alloc);
    push_count(&mut text, "make ", u128::from(n))?;
    push_count(&mut text, " zones ", zones as u128)?;
    push_counts(&mut text, counts)?;
    Ok(text)
}

/// The session of n: the image that it leaves, and its summary.
pub fn generate(alloc: Global, layout: Layout, n: u32) -> Result<(Bytes, Vec<u8>), AllocError>
    ensures image { IfOk result (λ r. r.0 ≡ session_image
        (generated (zones_of layout) (params_of layout).mem n).session) }
    ensures summary { IfOk result (λ r. r.1.items ≡ summary_of n (zones_of layout)
        (generated (zones_of layout) (params_of layout).mem n)) }
{
    Targets::check(&layout);
    let plan = RoundPlan::new(alloc, layout.zones())?;
    let zones = layout.zones().len();
    let image = zeros(alloc, layout.mem())?;
    let off = Off::fresh(alloc, layout, image)?;
    let (live, _) = boot_up(off)?;
    let mut draws = Draws::new(n);
    let mut counts = Counts::none();
    let live = rounds(alloc, &plan, &mut draws, &mut counts, live)?;
    let text = summary(alloc, n, zones, &counts)?;
    Ok((live.into_image(), text))
}
