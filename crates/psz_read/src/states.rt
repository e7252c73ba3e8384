// What a boot takes a zone for, and where the kernel fails at it.
ghost use Rattle.std.specs.Prelude.{◌≡◌};
ghost use Rattle.psz_spec.specs.Headers.{sig_of, cap_of};
ghost use Rattle.psz_spec.specs.States.{dump_state as dump_state_of, ring_state as ring_state_of};
ghost use Rattle.psz_spec.specs.States.{state_of as zone_state};
ghost use Rattle.psz_spec.specs.Failures.{found_fault as found_fault_of, broken_fault as broken_fault_of};
ghost use Rattle.psz_spec.specs.Failures.{kernel_fault as fault_of};

use crate::headers::{data_of, dump_header, header_len, words_of};
use psz_spec::{KernelFault, Kind, Machine, State, Words, Zone};

/// What a dump's header begins with.
pub(crate) const MAGIC: u32 = 0x4dfc_3ae5;

fn sig_of(kind: Kind) -> u32
    ensures { result ≡ sig_of kind }
{
    match kind {
        Kind::Dump => 0x4347_4244,
        Kind::Console => 0x4347_4246,
        Kind::Ftrace => 0x4347_4247,
        Kind::Pmsg => 0x4347_4243,
    }
}

fn cap_of(zone: &Zone) -> u32
    ensures { result ≡ cap_of zone.now }
{
    zone.size.saturating_sub(12)
}

fn dump_state(machine: Machine, zone: &Zone, words: Words, kept: &[u8]) -> State
    ensures { result ≡ dump_state_of machine zone.now words kept.now }
{
    if words.len > cap_of(zone) {
        return State::Overtop;
    }
    if dump_header(machine, kept).magic != MAGIC {
        return State::NoDump;
    }
    if words.len == 0 {
        return State::Erased;
    }
    if words.len < header_len(machine) {
        return State::Broken;
    }
    State::Found
}

fn ring_state(zone: &Zone, words: Words) -> State
    ensures { result ≡ ring_state_of zone.now words }
{
    if words.len > cap_of(zone) || words.start > cap_of(zone) {
        return State::Overtop;
    }
    if words.len == 0 {
        return State::Erased;
    }
    if words.len < words.start {
        return State::Broken;
    }
    State::Found
}

/// What a boot takes a zone for, by its bytes. The first 52 are enough.
#[tactic(auto, unfolding(psz_spec::specs::States::state_of))]
pub fn state_of(machine: Machine, zone: &Zone, bytes: &[u8]) -> State
    ensures { result ≡ zone_state machine zone.now bytes.now }
{
    let words = words_of(machine, bytes);
    if words.sig != sig_of(zone.kind) {
        return State::Unsigned;
    }
    match zone.kind {
        Kind::Dump => dump_state(machine, zone, words, data_of(bytes)),
        Kind::Pmsg | Kind::Console | Kind::Ftrace => ring_state(zone, words),
    }
}

fn broken_fault(kind: Kind) -> KernelFault
    ensures { result ≡ broken_fault_of kind }
{
    match kind {
        Kind::Dump => KernelFault::ShortDump,
        Kind::Pmsg | Kind::Console | Kind::Ftrace => KernelFault::StartBeyond,
    }
}

fn found_fault(machine: Machine, kind: Kind, bytes: &[u8]) -> Option<KernelFault>
    ensures { result ≡ found_fault_of machine kind bytes.now }
{
    match kind {
        Kind::Dump => {
            let packed = dump_header(machine, data_of(bytes)).packed;
            if packed && words_of(machine, bytes).len == header_len(machine) {
                Some(KernelFault::EmptyPacked)
            } else {
                None
            }
        }
        Kind::Pmsg | Kind::Console | Kind::Ftrace => None,
    }
}

/// How the kernel fails at a zone, by its first 52 bytes.
#[tactic(auto, unfolding(psz_spec::specs::Failures::kernel_fault))]
pub fn kernel_fault(machine: Machine, zone: &Zone, bytes: &[u8]) -> Option<KernelFault>
    ensures { result ≡ fault_of machine zone.now bytes.now }
{
    match state_of(machine, zone, bytes) {
        State::Broken => Some(broken_fault(zone.kind)),
        State::Found => found_fault(machine, zone.kind, bytes),
        State::Unsigned | State::Overtop | State::NoDump | State::Erased => None,
    }
}
