//! Encodes and decodes blocks of 128 bytes, and tells whether the answers agree with what was done to them.
//! With a number of rounds as its argument it times the work.
#![tactic(auto)]

ghost use Rattle.std.specs.Prelude.{◌≡◌, ◌≤◌, length, IfOk};
ghost use Rattle.kmsg_dump.specs.Kept.{IsLine};

use arrayvec::ArrayVec;
use kmsg_dump::KLog;
use rs_decode::{Decoded, Fix, decode, decode_with};
use rs_encode::{Parity, parity_by};
use std::alloc::{AllocError, Global};
use std::rt::Clock;
use std::time::Instant;
use std::{env, io};

/// 11, 48, 85 and so on, each 37 more than the last.
fn ramp() -> [u8; 128] {
    let mut block = [0u8; 128];
    let mut next = 11u8;
    for byte in block.iter_mut() {
        *byte = next;
        next = next.wrapping_add(37);
    }
    block
}

/// Damages so many bytes, from the first on, evenly over the block.
fn damage(block: &mut [u8], errors: usize)
    requires few { errors ≤ 63 }
    requires len { length block.old ≡ 128 }
{
    for i in 0..errors {
        block[i * 127 / errors] ^= 1 + i as u8;
    }
}

/// The sum of the first parity bytes of many blocks.
fn encode_many(coder: &Parity, r: usize, rounds: u32) -> u8
    requires coder { coder.now ≡ r }
    requires some { 1 ≤ r }
    requires few { r ≤ 127 }
{
    let mut block = ramp();
    let mut parity = [0u8; 127];
    let mut sum = 0u8;
    for i in 0..rounds {
        block[(i % 128) as usize] = (i % 251) as u8;
        coder.parity(&block, &mut parity[..r]);
        sum ^= parity[0];
    }
    sum
}

/// The same without a table.
fn encode_bare(r: usize, rounds: u32) -> u8
    requires some { 1 ≤ r }
    requires few { r ≤ 127 }
{
    let mut block = ramp();
    let mut parity = [0u8; 127];
    let mut sum = 0u8;
    for i in 0..rounds {
        block[(i % 128) as usize] = (i % 251) as u8;
        parity_by(&[], &block, &mut parity[..r]);
        sum ^= parity[0];
    }
    sum
}

/// The same for two blocks a round.
fn encode_pairs(coder: &Parity, r: usize, rounds: u32) -> u8
    requires coder { coder.now ≡ r }
    requires some { 1 ≤ r }
    requires few { r ≤ 127 }
{
    let mut block = ramp();
    let other = ramp();
    let mut parity = [0u8; 127];
    let mut other_parity = [0u8; 127];
    let mut sum = 0u8;
    for i in 0..rounds {
        block[(i % 128) as usize] = (i % 251) as u8;
        coder.parity_pair(&block, &other, &mut parity[..r], &mut other_parity[..r]);
        sum ^= parity[0] ^ other_parity[0];
    }
    sum
}

/// Whether two blocks encoded together have the parity that `is_parity` wants.
fn pair_agrees(coder: &Parity, r: usize) -> bool
    requires coder { coder.now ≡ r }
    requires some { 1 ≤ r }
    requires few { r ≤ 127 }
{
    let block = ramp();
    let mut other = block;
    damage(&mut other, 3);
    let mut parity = [0u8; 127];
    let mut other_parity = [0u8; 127];
    coder.parity_pair(&block, &other, &mut parity[..r], &mut other_parity[..r]);
    coder.is_parity(&block, &parity[..r])
        && coder.is_parity(&other, &other_parity[..r])
        && !coder.is_parity(&block, &other_parity[..r])
}

/// How many of the rounds correct a block with so many errors whole.
fn decode_many(coder: &Parity, r: usize, errors: usize, rounds: u32) -> u32
    requires coder { coder.now ≡ r }
    requires some { 1 ≤ r }
    requires few { r ≤ 127 }
    requires errors { errors ≤ 63 }
{
    let block = ramp();
    let mut parity = [0u8; 127];
    coder.parity(&block, &mut parity[..r]);
    let mut damaged = block;
    damage(&mut damaged, errors);
    let mut fixes: ArrayVec<Fix, 63> = ArrayVec::new();
    let mut right = 0u32;
    for _ in 0..rounds {
        let mut word = damaged;
        let answer = decode_with(coder, &mut word, &parity[..r], &mut fixes);
        if is_right(answer, errors) && word == block && fixes.len() == errors {
            right = right.wrapping_add(1);
        }
    }
    right
}

fn is_right(answer: Decoded, errors: usize) -> bool {
    match answer {
        Decoded::Clean => errors == 0,
        Decoded::Fixed(count) => count as usize == errors,
        Decoded::Bad => false,
    }
}

/// The same without a table.
fn decode_many_plain(r: usize, errors: usize, rounds: u32) -> u32
    requires some { 1 ≤ r }
    requires few { r ≤ 127 }
    requires errors { errors ≤ 63 }
{
    let block = ramp();
    let mut parity = [0u8; 127];
    Parity::new(r).parity(&block, &mut parity[..r]);
    let mut damaged = block;
    damage(&mut damaged, errors);
    let mut fixes: ArrayVec<Fix, 63> = ArrayVec::new();
    let mut right = 0u32;
    for _ in 0..rounds {
        let mut word = damaged;
        let answer = decode(&mut word, &parity[..r], &mut fixes);
        if is_right(answer, errors) && word == block && fixes.len() == errors {
            right = right.wrapping_add(1);
        }
    }
    right
}

/// Whether the answers agree for `r` parity symbols, clean and with as many errors as can be corrected.
fn agrees(r: usize) -> bool
    requires some { 1 ≤ r }
    requires few { r ≤ 127 }
{
    let coder = Parity::new(r);
    pair_agrees(&coder, r)
        && decode_many(&coder, r, 0, 2) == 2
        && decode_many(&coder, r, r / 2, 2) == 2
        && decode_many_plain(r, 0, 2) == 2
        && decode_many_plain(r, r / 2, 2) == 2
}

/// Megabytes a second.
fn speed(rounds: u32, micros: u128) -> u128 {
    let bytes = rounds as u128 * 128;
    bytes.checked_div(micros).unwrap_or(0)
}

fn time(rt: &(impl Print + Clock), r: usize, rounds: u32) -> io::Result<()>
    requires some { 1 ≤ r }
    requires few { r ≤ 127 }
{
    let coder = Parity::new(r);
    let start = Instant::now(rt)?;
    let sum = encode_many(&coder, r, rounds);
    let rate = speed(rounds, start.elapsed(rt)?.as_micros());
    println!(rt; "r {r}: encoding {rate} MB/s (sum {sum})")?;
    let start = Instant::now(rt)?;
    let sum = encode_bare(r, rounds / 16);
    let rate = speed(rounds / 16, start.elapsed(rt)?.as_micros());
    println!(rt; "r {r}: encoding without a table {rate} MB/s (sum {sum})")?;
    let start = Instant::now(rt)?;
    let sum = encode_pairs(&coder, r, rounds / 2);
    let rate = speed(rounds, start.elapsed(rt)?.as_micros());
    println!(rt; "r {r}: encoding pairs {rate} MB/s (sum {sum})")?;
    for errors in [0, 1, r / 4, r / 2] {
        let start = Instant::now(rt)?;
        let right = decode_many(&coder, r, errors.min(63), rounds);
        let micros = start.elapsed(rt)?.as_micros();
        let rate = speed(rounds, micros);
        println!(rt;
            "r {r}: decoding {errors} errors {rate} MB/s, {micros} us for {right} right of {rounds}"
        )?;
    }
    let start = Instant::now(rt)?;
    let right = decode_many_plain(r, 0, rounds);
    let rate = speed(rounds, start.elapsed(rt)?.as_micros());
    println!(rt;
        "r {r}: decoding 0 errors, without a table, {rate} MB/s, {right} right of {rounds}"
    )?;
    Ok(())
}

// A line of 80 bytes of the message log, without its newline.
#[tactic(auto, using(crate::proofs::LogLine::letters_line))]
fn log_line(alloc: Global) -> Result<Vec<u8>, AllocError>
    ensures { IfOk result (λ line. IsLine line.items) }
{
    let line = Vec::from_elem(alloc, b'x', 79)?;
    Ok(line)
}

/// How many of so many lines a message log of 131072 bytes takes.
fn push_many(alloc: Global, rounds: u32) -> Result<u32, AllocError> {
    let line = log_line(alloc)?;
    let mut log = KLog::new(alloc, 131_072)?;
    let mut pushed = 0u32;
    for _ in 0..rounds {
        if log.push(&line) {
            pushed = pushed.wrapping_add(1);
        }
    }
    Ok(pushed)
}

fn time_log(rt: &(impl Print + Clock), alloc: Global, rounds: u32) -> io::Result<()> {
    let start = Instant::now(rt)?;
    let pushed = push_many(alloc, rounds)?;
    let micros = start.elapsed(rt)?.as_micros();
    println!(rt; "message log: {pushed} lines of 80 bytes in {micros} us")
}

fn main(rt: HostRuntime) -> io::Result<()> {
    if agrees(16) && agrees(127) && agrees(7) {
        println!(rt; "the answers agree")?;
    } else {
        println!(rt; "the answers differ")?;
    }
    for word in env::args(&rt)?.skip(1) {
        let rounds: u32 = word.parse().unwrap_or(0);
        time(&rt, 16, rounds)?;
        time(&rt, 127, rounds)?;
        time_log(&rt, rt.alloc(), rounds)?;
    }
    Ok(())
}
