//! Decodes the streams of its input, each behind its length and the most bytes of its text, four bytes each, little
//! endian. Writes a line of each: what was answered, how many bytes the stream has if it ends, the length of the text
//! and its MD5. With a number as its argument it decodes the whole input as one stream so many times, and tells how
//! long that took.
#![tactic(auto)]

ghost use Rattle.std.specs.Prelude.{◌<◌};

use inflate::{InflateError, inflate};
use md5::{Digest, Md5};
use std::alloc::{AllocError, Global};
use std::io::Read;
use std::rt::Clock;
use std::time::Instant;
use std::{env, io};

// The length of a text, and its MD5.
fn shown(alloc: Global, text: &[u8]) -> Result<String, AllocError> {
    let digest = hex::encode(alloc, Md5::digest(text))?;
    format!(in alloc; "{} {digest}", text.len())
}

fn line(alloc: Global, stream: &[u8], most: usize) -> Result<String, AllocError> {
    match inflate(alloc, stream, most) {
        Ok(found) => {
            let text = shown(alloc, &found.text)?;
            format!(in alloc; "text {} {text}", found.taken)
        }
        Err(InflateError::Memory) => String::from_str(alloc, "memory"),
        Err(InflateError::TooLong { text }) => {
            let text = shown(alloc, &text)?;
            format!(in alloc; "too long {text}")
        }
        Err(InflateError::Broken { fault, text }) => {
            let text = shown(alloc, &text)?;
            format!(in alloc; "{fault:?} {text}")
        }
    }
}

fn all_lines<R: Print + AllocGlobal>(rt: &R, input: &[u8]) -> io::Result<()> {
    let mut rest = input;
    while rest.len() >= 8 {
        let len = u32::from_le_bytes([rest[0], rest[1], rest[2], rest[3]]) as usize;
        let most = u32::from_le_bytes([rest[4], rest[5], rest[6], rest[7]]) as usize;
        rest = &rest[8..];
        if rest.len() < len {
            return Ok(());
        }
        let line = line(rt.alloc(), &rest[..len], most)?;
        println!(rt; "{line}")?;
        rest = &rest[len..];
    }
    Ok(())
}

fn time<R: Print + AllocGlobal + Clock>(rt: &R, input: &[u8], rounds: u32) -> io::Result<()> {
    let begin = Instant::now(rt)?;
    let mut bytes = 0u64;
    for _ in 0..rounds {
        if let Ok(found) = inflate(rt.alloc(), input, 1 << 30) {
            bytes = bytes.wrapping_add(found.text.len() as u64);
        }
    }
    let took = begin.elapsed(rt)?.as_micros();
    println!(rt; "{bytes} bytes in {took} us")
}

fn main(rt: HostRuntime) -> io::Result<()> {
    let mut input = Vec::new(rt.alloc());
    rt.stdin().read_to_end(&mut input)?;
    let mut rounds = 0u32;
    for word in env::args(&rt)?.skip(1) {
        rounds = word.parse::<u32>().unwrap_or(0);
    }
    if rounds > 0 {
        time(&rt, &input, rounds)
    } else {
        all_lines(&rt, &input)
    }
}
