// The lines of a script on a shared zone.
ghost use Rattle.std.specs.Prelude.{◌≡◌, ◌<◌, ◌^◌, ℕ, List, Option, vec_len, length, Ok, IfOk};
ghost use Rattle.ramoops_layout.specs.Laid.{params_of, zones_of};
ghost use Rattle.grammar_spec.specs.Printed.{AllHaveFields};
ghost use Rattle.command_spec.specs.Commands.{wanted_shared_lines};
ghost use Rattle.command_line.specs.Words.{CanShareIn};
ghost use Rattle.commands.specs.Scripts.{LinesLeave};
ghost use Rattle.commands.specs.Stores.{IsBooted};

use crate::stores::fresh_store;
use command_line::{Stop, stop_of};
use outside::Bytes;
use ramoops_layout::types::Layout;
use ramoops_layout::{Kind, ZoneName};
use script::Lines;
use shared_ring::Shared;
use shared_session::{play, shared_text};
use std::alloc::{AllocError, Global};

const FTRACE: ZoneName = ZoneName {
    kind: Kind::Ftrace,
    index: 0,
};

// The image after a boot and a stop.
fn booted_image(alloc: Global, layout: Layout, image: Vec<u8>) -> Result<Bytes, AllocError>
    requires { vec_len image ≡ (params_of layout).mem }
    ensures { IfOk result (IsBooted (params_of layout) (zones_of layout) image.items) }
{
    let off = fresh_store(alloc, layout, image)?;
    match off.boot() {
        Ok((live, _, _)) => Ok(live.into_image()),
        Err(_) => Err(AllocError),
    }
}

/// Does the lines on the zone ftrace-0 of an image that it boots and stops before. The text and the image are left.
pub fn share(
    alloc: Global,
    booted: Layout,
    layout: Layout,
    image: Vec<u8>,
    lines: Lines,
) -> Result<(Vec<u8>, Bytes), Stop>
    requires size { vec_len image ≡ (params_of booted).mem }
    requires plain { CanShareIn booted layout }
    requires fields { AllHaveFields lines }
    requires few { length lines < 2 ^ 32 }
    ensures { (given : Option (List ℕ)) (h : ℕ)
        → LinesLeave (wanted_shared_lines (zones_of booted) image.items (Ok lines)) given given h h result }
{
    let image = match booted_image(alloc, booted, image) {
        Ok(image) => image,
        Err(AllocError) => return Err(Stop::Memory),
    };
    let mut shared = match Shared::open(image, layout, FTRACE) {
        Ok(shared) => shared,
        Err((_, AllocError)) => return Err(Stop::Memory),
    };
    let played = play(&mut shared, lines);
    let text = shared_text(alloc, &shared);
    let image = shared.close();
    match (played, text) {
        (Err(stop), _) => Err(stop_of(stop)),
        (Ok(()), Ok(text)) => Ok((text, image)),
        (Ok(()), Err(AllocError)) => Err(Stop::Memory),
    }
}
