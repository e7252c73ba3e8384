// The lines of a script, in order.
ghost use Rattle.std.specs.Prelude.{◌^◌, ◌<◌, ℕ, List, length};
ghost use Rattle.zone_spec.specs.declared.Zone.{Zone};
ghost use Rattle.grammar_spec.specs.Printed.{AllHaveFields};
ghost use Rattle.shared_ring.specs.Seen.{IsLeftBy};
ghost use Rattle.shared_session.specs.Left.{just_opened, IsOpened, Plays};

use crate::lines::do_line;
use script::Lines;
use script_spec::LineStop;
use shared_ring::Shared;

/// Does the lines in order on a zone that was just opened, up to the first that is refused. Takes no memory.
pub fn play(shared: &mut Shared, lines: Lines) -> Result<(), LineStop>
    requires fields { AllHaveFields lines }
    requires few { length lines < 2 ^ 32 }
    requires opened { IsOpened shared.old }
    ensures { (z : Zone) (image : List ℕ) → IsLeftBy (just_opened z image) shared.old
        → Plays z image lines shared.new result }
{
    let mut number = 0u32;
    for line in lines.into_vec() {
        number += 1;
        match do_line(shared, line) {
            Ok(()) => {}
            Err(cause) => {
                return Err(LineStop::Refused {
                    line: number,
                    cause,
                });
            }
        }
    }
    Ok(())
}
