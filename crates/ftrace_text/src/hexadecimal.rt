// Numbers in hexadecimal.
ghost use Rattle.std.specs.Prelude.{◌≡◌, ◌++◌, ◌<◌, ◌≤◌, ◌==◌, length, OnOk};
ghost use Rattle.std.specs.List.{prefix_len};
ghost use Rattle.ftrace_spec.specs.Lines.{digit as digit_of, sixteen as sixteen_of, hexadecimal as hexadecimal_of};

use std::alloc::AllocError;

fn digit(n: u64, unit: u64) -> u8
    requires { 0 < unit }
    ensures { result ≡ digit_of n unit }
{
    let value = (n / unit % 16) as u8;
    if value < 10 { b'0' + value } else { 87 + value }
}

/// The sixteen digits of a number.
#[tactic(auto, unfolding(ftrace_spec::specs::Lines::sixteen))]
fn sixteen(n: u64) -> [u8; 16]
    ensures { result ≡ sixteen_of n }
{
    [
        digit(n, 1 << 60),
        digit(n, 1 << 56),
        digit(n, 1 << 52),
        digit(n, 1 << 48),
        digit(n, 1 << 44),
        digit(n, 1 << 40),
        digit(n, 1 << 36),
        digit(n, 1 << 32),
        digit(n, 1 << 28),
        digit(n, 1 << 24),
        digit(n, 1 << 20),
        digit(n, 1 << 16),
        digit(n, 1 << 12),
        digit(n, 1 << 8),
        digit(n, 1 << 4),
        digit(n, 1),
    ]
}

/// How many zeros stand at the front.
fn zeros(digits: &[u8]) -> usize
    ensures zeros { result ≡ prefix_len (λ d. d == 48) digits.now }
    ensures within { result ≤ length digits.now }
{
    let mut len = 0;
    'digits: while len < digits.len() && digits[len] == b'0' {
        len += 1;
    }
    len
}

/// Appends a number in hexadecimal, with at least so many digits.
#[tactic(auto, unfolding(ftrace_spec::specs::Lines::hexadecimal))]
pub fn push_hexadecimal(out: &mut Vec<u8>, least: usize, n: u64) -> Result<(), AllocError>
    requires { least ≤ 16 }
    ensures { OnOk result (out.new.items ≡ out.old.items ++ hexadecimal_of least n) }
{
    let digits = sixteen(n);
    let shown = zeros(&digits).min(16 - least);
    out.extend_from_slice(&digits[shown..])
}
