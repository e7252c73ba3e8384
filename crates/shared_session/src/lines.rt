// The lines of a script on a shared zone.
ghost use Rattle.std.specs.Prelude.{◌≡◌, ◌^◌, ◌<◌, length, MatchResult, OnErr, Err};
ghost use Rattle.grammar_spec.specs.Printed.{HasFields};
ghost use Rattle.shared_spec.specs.Calls.{open_call};
ghost use Rattle.shared_spec.specs.Machine.{refusal};
ghost use Rattle.shared_spec.specs.Histories.{History, shared_zone};
ghost use Rattle.shared_ring.specs.Seen.{IsLeftBy};
ghost use Rattle.script_spec.specs.SharedScripts.{reserves, stores, with_steps, shared_line};
ghost use Rattle.shared_session.specs.Left.{IsLeft};

use outside::Bytes;
use script::Line;
use script_spec::Cause;
use shared_ring::{NoCall, Shared, SharedRefusal};

// A reservation.
fn reserve(shared: &mut Shared, payload: Bytes) -> Result<(), Cause>
    requires some { 0 < length payload }
    requires few { shared.old.reserved < 2 ^ 63 }
    ensures done { (h : History) → IsLeftBy h shared.old
        → let wanted = reserves h payload (refusal h.zone (shared_zone h).calls (length payload)) in
        MatchResult result (λ _. IsLeft wanted shared.new) (λ cause. wanted ≡ Err cause) }
    ensures unchanged { OnErr result (shared.new ≡ shared.old) }
{
    match shared.reserve(payload) {
        Ok(_) => Ok(()),
        Err((SharedRefusal::NoSeat, _)) => Err(Cause::NoSeat),
        Err((SharedRefusal::Crowded { .. }, _)) => Err(Cause::Crowded),
    }
}

// The next bytes of an open call, so many or all that are left.
fn store_bytes(shared: &mut Shared, ticket: u64, count: u32)
    ensures { (h : History) → IsLeftBy h shared.old → IsLeftBy (with_steps h ticket count) shared.new }
{
    let mut made = 0;
    'steps: while made < count {
        match shared.step(ticket) {
            Ok(_) => made += 1,
            Err(NoCall) => return,
        }
    }
}

// The same, if the call is open.
fn store_next(shared: &mut Shared, ticket: u64, count: u32) -> Result<(), Cause>
    ensures done { (h : History) → IsLeftBy h shared.old
        → let wanted = stores h ticket count (open_call (shared_zone h).calls ticket) in
        MatchResult result (λ _. IsLeft wanted shared.new) (λ cause. wanted ≡ Err cause) }
    ensures unchanged { OnErr result (shared.new ≡ shared.old) }
{
    if !shared.is_open(ticket) {
        return Err(Cause::Idle);
    }
    store_bytes(shared, ticket, count);
    Ok(())
}

/// Does a line, or answers why it is refused; then the zone stays as it is. Takes no memory.
pub fn do_line(shared: &mut Shared, line: Line) -> Result<(), Cause>
    requires fields { HasFields line }
    requires few { shared.old.reserved < 2 ^ 63 }
    ensures done { (h : History) → IsLeftBy h shared.old → MatchResult result
        (λ _. IsLeft (shared_line h line) shared.new) (λ cause. shared_line h line ≡ Err cause) }
    ensures unchanged { OnErr result (shared.new ≡ shared.old) }
{
    match line {
        Line::Blank => Ok(()),
        Line::Reserve(payload) => reserve(shared, payload),
        Line::StoreNext(ticket, count) => store_next(shared, u64::from(ticket), count),
        _ => Err(Cause::NotHere),
    }
}
