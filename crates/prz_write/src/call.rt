// The calls on a zone, with what they store.
ghost use Rattle.std.specs.Prelude.{◌≡◌, ◌≤◌, length};
ghost use Rattle.zone_spec.specs.Told.{kind_of};
ghost use Rattle.prz_write.specs.Calls.{call_seen, kind_seen, line_seen, payload_seen};

use arrayvec::ArrayString;
use outside::Bytes;
use std::marker::Model;
use zone_spec::CallKind;

/// A dump's time line, at most 36 bytes.
#[derive(Drop)]
pub struct Line36(ArrayString<36>);

impl Model for Line36 {
    ghost use Rattle.std.specs.Prelude.{List, ℕ, ◌≤◌, length};

    ghost Value = { List ℕ };

    ghost view = { λ l. l.0.bytes };

    ghost invariant = { λ l. length l.0.bytes ≤ 36 };
}

impl Line36 {
    pub fn from_text(line: &ArrayString<36>) -> Line36
        ensures { result ≡ line.now.bytes }
    {
        let _len = line.len();
        Line36(*line)
    }

    pub fn as_str(&self) -> &str
        ensures value { result.now ≡ self.now }
        ensures fits { length self.now ≤ 36 }
    {
        self.0.as_str()
    }
}

/// A call on one zone.
#[derive(Drop)]
pub enum Call {
    /// Bytes to append. Of more than the zone's capacity the last ones alone are appended.
    Append(Bytes),
    Erase,
    /// A dump's time line and its body, of which the front that fits is kept.
    Dump(Line36, Bytes),
}

impl Call {
    pub fn kind(&self) -> CallKind
        ensures seen { result ≡ kind_seen self.now }
        ensures kind { result ≡ kind_of (call_seen self.now) }
    {
        match self {
            Call::Append(_) => CallKind::Append,
            Call::Erase => CallKind::Erase,
            Call::Dump(_, _) => CallKind::Dump,
        }
    }

    /// The time line of a dump.
    pub(crate) fn line(&self) -> &[u8]
        ensures value { result.now ≡ line_seen self.now }
        ensures fits { length result.now ≤ 36 }
    {
        match self {
            Call::Append(_) => &[],
            Call::Erase => &[],
            Call::Dump(line, _) => line.as_str().as_bytes(),
        }
    }

    /// The bytes of an append, or a dump's body.
    pub(crate) fn payload(&self) -> &[u8]
        ensures { result.now ≡ payload_seen self.now }
    {
        match self {
            Call::Append(bytes) => bytes.as_slice(),
            Call::Erase => &[],
            Call::Dump(_, body) => body.as_slice(),
        }
    }
}

/// What a step did.
#[derive(Clone, Copy, Debug, PartialEq, Eq)]
pub enum Step {
    /// A store that others follow.
    Stored,
    /// The last store.
    Done,
}
