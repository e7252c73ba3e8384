// The payload of an entry.
ghost use Rattle.std.specs.Prelude.{◌≡◌, ◌+◌, ◌==◌, ◌<◌, length, drop, position, IfSome};
ghost use Rattle.pmsg_spec.specs.Payloads.{until_zero as until_zero_of, priority_of, tag_of, text_of};

/// What an entry says.
#[derive(Clone, Copy, Debug, PartialEq, Eq)]
pub struct Message<'a> {
    /// The letter of its priority, `V`, `D`, `I`, `W`, `E`, `F` or `S`; `?` if it has none.
    pub priority: u8,
    pub tag: &'a [u8],
    pub text: &'a [u8],
}

// The place of the first zero.
fn zero_at(bytes: &[u8]) -> Option<usize>
    ensures value { result ≡ position (λ b. b == 0) bytes.now }
    ensures inside { IfSome result (λ len. len < length bytes.now) }
{
    bytes.iter().position(|byte| *byte == 0)
}

fn until_zero(bytes: &[u8]) -> &[u8]
    ensures { result.now ≡ until_zero_of bytes.now }
{
    match zero_at(bytes) {
        Some(len) => &bytes[..len],
        None => bytes,
    }
}

/// What stands from a place on, or nothing past the end.
pub fn tail(bytes: &[u8], at: usize) -> &[u8]
    ensures { result.now ≡ drop at bytes.now }
{
    if at <= bytes.len() { &bytes[at..] } else { &[] }
}

fn priority(payload: &[u8]) -> u8
    ensures { result ≡ priority_of payload.now }
{
    let letters = b"??VDIWEFS";
    let level = if payload.is_empty() { 0 } else { payload[0] };
    if level < 9 {
        letters[level as usize]
    } else {
        b'?'
    }
}

/// Splits a payload.
pub fn split_payload(payload: &[u8]) -> Message<'_>
    ensures priority { result.priority ≡ priority_of payload.now }
    ensures tag { result.tag.now ≡ tag_of payload.now }
    ensures text { result.text.now ≡ text_of payload.now }
{
    let tag = until_zero(tail(payload, 1));
    Message {
        priority: priority(payload),
        tag,
        text: until_zero(tail(payload, tag.len() + 2)),
    }
}
