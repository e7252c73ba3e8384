// What may be asked of a live machine.
ghost use Rattle.std.specs.Prelude.{◌≡◌};
ghost use Rattle.prz_write.specs.Calls.{call_seen};
ghost use Rattle.machine_spec.specs.LiveCalls.{call_of as call_asked};
ghost use Rattle.machine_spec.specs.Sound.{IsAsk};
ghost use Rattle.ramoops.specs.Asks.{ask_seen, CanBeAsked};

use arrayvec::ArrayString;
use dump_records::line;
use outside::Bytes;
use prz_write::{Call, Line36};
use zone_spec::{Refusal, Time, ZoneName};

/// A call that is asked for.
#[derive(Drop)]
pub enum Ask {
    /// Bytes for a console, ftrace or pmsg zone.
    Append(ZoneName, Bytes),
    Erase(ZoneName),
    /// A dump at a time, compressed or not, into the next dump zone.
    Dump(Time, bool, Bytes),
}

/// Why a call was not begun, and what was asked.
#[derive(Drop)]
pub struct Refused {
    pub why: Refusal,
    pub ask: Ask,
}

impl Ask {
    /// Tells that the payload is of bytes.
    pub(crate) fn check(&self)
        requires { CanBeAsked self.now }
        ensures { IsAsk (ask_seen self.now) }
    {
        match self {
            Ask::Append(_, payload) | Ask::Dump(_, _, payload) => {
                let _len = payload.len();
            }
            Ask::Erase(_) => {}
        }
    }

    /// The call that it is, a dump with its time line.
    pub(crate) fn into_call(self) -> Call
        requires { CanBeAsked self }
        ensures { call_seen result ≡ call_asked (ask_seen self) }
    {
        match self {
            Ask::Append(_, payload) => Call::Append(payload),
            Ask::Erase(_) => Call::Erase,
            Ask::Dump(time, packed, body) => {
                let mut text = ArrayString::new();
                line(time, packed, &mut text);
                Call::Dump(Line36::from_text(&text), body)
            }
        }
    }
}
