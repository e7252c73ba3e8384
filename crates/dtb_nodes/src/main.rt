//! Prints the ramoops nodes of the device trees of its input, each after its length in four bytes, little endian. Of
//! each tree it prints a line `ok` with the number of nodes, and a line of each node: path, address, size, the sizes of
//! record, console, ftrace, pmsg and parity, and the flags. Otherwise it prints the fault, or `memory`. With a number
//! as its argument it reads the whole input as one tree so many times, and prints how long that took.
#![tactic(auto)]

ghost use Rattle.std.specs.Prelude.{◌<◌};

use dtb::{DtbError, Node, ramoops_nodes};
use std::io::Read;
use std::rt::Clock;
use std::time::Instant;
use std::{env, io};

// The line of a node.
fn show_node<R: Print + AllocGlobal>(rt: &R, node: &Node) -> io::Result<()> {
    let n = node.numbers;
    let path = String::from_utf8_lossy(rt.alloc(), &node.path)?;
    println!(rt;
        "{} {} {} {} {} {} {} {} {}",
        path.as_str(),
        n.address,
        n.size,
        n.record_size,
        n.console_size,
        n.ftrace_size,
        n.pmsg_size,
        n.ecc_size,
        n.flags
    )
}

// The lines of a tree.
fn show<R: Print + AllocGlobal>(rt: &R, bytes: &[u8]) -> io::Result<()> {
    match ramoops_nodes(rt.alloc(), bytes) {
        Ok(nodes) => {
            println!(rt; "ok {}", nodes.len())?;
            for node in &nodes {
                show_node(rt, node)?;
            }
            Ok(())
        }
        Err(DtbError::Memory) => println!(rt; "memory"),
        Err(DtbError::Broken(fault)) => println!(rt; "{fault:?}"),
    }
}

fn show_all<R: Print + AllocGlobal>(rt: &R, input: &[u8]) -> io::Result<()> {
    let mut rest = input;
    while rest.len() >= 4 {
        let len = u32::from_le_bytes([rest[0], rest[1], rest[2], rest[3]]) as usize;
        rest = &rest[4..];
        if rest.len() < len {
            return Ok(());
        }
        show(rt, &rest[..len])?;
        rest = &rest[len..];
    }
    Ok(())
}

fn time<R: Print + AllocGlobal + Clock>(rt: &R, input: &[u8], rounds: u32) -> io::Result<()> {
    let begin = Instant::now(rt)?;
    let mut sum = 0u64;
    for _ in 0..rounds {
        if let Ok(found) = ramoops_nodes(rt.alloc(), input) {
            sum = sum.wrapping_add(found.len() as u64);
        }
    }
    let took = begin.elapsed(rt)?.as_micros();
    println!(rt; "{sum} nodes in {took} us")
}

fn main(rt: HostRuntime) -> io::Result<()> {
    let mut input = Vec::new(rt.alloc());
    rt.stdin().read_to_end(&mut input)?;
    let mut rounds = 0u32;
    for word in env::args(&rt)?.skip(1) {
        rounds = word.parse::<u32>().unwrap_or(0);
    }
    if rounds > 0 {
        time(&rt, &input, rounds)
    } else {
        show_all(&rt, &input)
    }
}
