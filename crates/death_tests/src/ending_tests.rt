// Logs that tell of no death, and how they end.
use death::*;

fn is_ended(text: &[u8], wanted: Ending, line: &[u8]) -> bool {
    match ending(text) {
        Some(found) => {
            found.ending == wanted && text.get(found.line.text..found.line.end) == Some(line)
        }
        None => false,
    }
}

#[test]
fn endings(rt: HostRuntime) {
    for (text, wanted, line) in [
        (
            b"<6>[    9.1] reboot: Restarting system\n".as_slice(),
            Ending::Restarted,
            b"reboot: Restarting system".as_slice(),
        ),
        (
            b"[    9.1] reboot: Restarting system\n[    9.2] reboot: machine restart\n\n",
            Ending::Restarted,
            b"reboot: machine restart",
        ),
        (
            b"reboot: Power down\n<12>a program\n",
            Ending::SwitchedOff,
            b"reboot: Power down",
        ),
        (
            b"a\nreboot: System halted",
            Ending::SwitchedOff,
            b"reboot: System halted",
        ),
        // source: a kernel that was loaded, and a machine that cannot switch itself off
        (
            b"<5>[    9.1] kexec_core: Starting new kernel\n",
            Ending::Restarted,
            b"kexec_core: Starting new kernel",
        ),
        (
            b"reboot: Power off not available: System halted instead\n",
            Ending::SwitchedOff,
            b"reboot: Power off not available: System halted instead",
        ),
        (b"a\nsysrq: Resetting\n", Ending::Reset, b"sysrq: Resetting"),
        (
            b"sysrq: Emergency Sync\nEmergency Sync complete\n",
            Ending::Reset,
            b"Emergency Sync complete",
        ),
        // the machine went on
        (
            b"sysrq: Emergency Sync\nusb 1-1: new device\n",
            Ending::BrokenOff,
            b"usb 1-1: new device",
        ),
    ] {
        assert!(rt; is_ended(text, wanted, line));
    }
}

#[test]
fn no_ending(rt: HostRuntime) {
    assert!(rt; ending(b"BUG: a\nreboot: Restarting system\n").is_none());
    assert!(rt; ending(b"\n<12>a program\n").is_none());
}
