// Calls in a live store, as a session's lines ask for them.
ghost use Rattle.std.specs.Prelude.{◌≡◌, OnOk, OnErr, IfOk, IfErr};
ghost use Rattle.machine_spec.specs.LiveCalls.{make as makes, step as steps, finish as finishes};
ghost use Rattle.ramoops.specs.Asks.{ask_seen, CanBeAsked};
ghost use Rattle.ram_session.specs.Answers.{Done, IsRefused, Begun, NotBegun};

use ramoops::{Ask, Live, Refusal, Refused};
use zone_spec::ZoneName;

/// Makes the next `count` stores of a zone's flight, or all that are left.
pub fn step(live: &mut Live, zone: ZoneName, count: u64) -> Result<(), Refusal>
    ensures stepped { OnOk result (Done live.old live.new (λ layout s. steps layout s zone count)) }
    ensures refused { IfErr result (λ why. IsRefused live.old why (λ layout s. steps layout s zone count)) }
    ensures unchanged { OnErr result (live.new ≡ live.old) }
{
    match live.advance(zone, count) {
        Ok(()) => Ok(()),
        Err(why) => Err(why),
    }
}

/// Makes all stores that are left of a zone's flight.
pub fn finish(live: &mut Live, zone: ZoneName) -> Result<(), Refusal>
    ensures finished { OnOk result (Done live.old live.new (λ layout s. finishes layout s zone)) }
    ensures refused { IfErr result (λ why. IsRefused live.old why (λ layout s. finishes layout s zone)) }
    ensures unchanged { OnErr result (live.new ≡ live.old) }
{
    match live.finish(zone) {
        Ok(()) => Ok(()),
        Err(why) => Err(why),
    }
}

fn cause(refused: &Refused) -> Refusal
    ensures { result ≡ refused.now.why }
{
    refused.why
}

/// Begins a call, and makes no store.
pub fn begin(live: &mut Live, ask: Ask) -> Result<ZoneName, Refusal>
    requires { CanBeAsked ask }
    ensures begun { IfOk result (Begun live.old live.new (ask_seen ask)) }
    ensures refused { IfErr result (NotBegun live.old (ask_seen ask)) }
    ensures unchanged { OnErr result (live.new ≡ live.old) }
{
    match live.begin(ask) {
        Ok(zone) => Ok(zone),
        Err(refused) => Err(cause(&refused)),
    }
}

/// Begins a call and makes all its stores.
pub fn make(live: &mut Live, ask: Ask) -> Result<(), Refusal>
    requires { CanBeAsked ask }
    ensures made { OnOk result (Done live.old live.new (λ layout s. makes layout s (ask_seen ask))) }
    ensures refused { IfErr result (λ why. IsRefused live.old why (λ layout s. makes layout s (ask_seen ask))) }
    ensures unchanged { OnErr result (live.new ≡ live.old) }
{
    match live.make(ask) {
        Ok(()) => Ok(()),
        Err(refused) => Err(cause(&refused)),
    }
}
