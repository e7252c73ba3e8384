// The functions of call traces.
use crate::records::{OOPS, PANIC, STOCK};
use death::*;
use std::alloc::{AllocError, Global};
use std::test::Fail;

// Each name with a newline behind it.
fn names_of(alloc: Global, text: &[u8]) -> Result<Vec<u8>, AllocError> {
    let mut bytes = Vec::new(alloc);
    for span in trace(alloc, text)?.iter() {
        bytes.extend_from_slice(text.get(span.start..span.end).unwrap_or(b"?"))?;
        bytes.push(b'\n')?;
    }
    Ok(bytes)
}

pub fn are_names(alloc: Global, text: &[u8], wanted: &[u8]) -> Result<bool, AllocError> {
    let names = names_of(alloc, text)?;
    Ok(names.as_slice() == wanted)
}

#[test]
fn traces_of_records(rt: HostRuntime) -> Result<(), Fail> {
    let oops =
        b"direct_entry\nfull_proxy_write\nvfs_write\nksys_write\n__x64_sys_write\nx64_sys_call\ndo_syscall_64\n\
entry_SYSCALL_64_after_hwframe\n";
    assert!(rt; are_names(rt.alloc(), OOPS, oops)?);
    // the trace above the panic is that of an oops
    assert!(rt; are_names(rt.alloc(), PANIC, b"")?);
    let stock =
        b"dump_stack_lvl\npanic\nsysrq_handle_crash\n__handle_sysrq.cold\nwrite_sysrq_trigger\nproc_reg_write\n\
vfs_write\nksys_write\ndo_syscall_64\nentry_SYSCALL_64_after_hwframe\n";
    assert!(rt; are_names(rt.alloc(), STOCK, stock)?);
    Ok(())
}

#[test]
fn traces_of_other_machines(rt: HostRuntime) -> Result<(), Fail> {
    for (text, wanted) in [
        // riscv, with addresses
        (
            b"<0>Kernel panic - not syncing: a\n<4>Call Trace:\n<4>[<ffffffff80003b9a>] dump_backtrace+0x1c/0x24\n\
<4>[<ffffffff80003b9a>] ? b+0x1/0x2\n<4>[<ffffffff80003b9a>] panic+0x1c/0x24 [m]\n<4>---[ end Kernel panic\n"
                .as_slice(),
            b"dump_backtrace\npanic\n".as_slice(),
        ),
        // arm
        (
            b"[ 1.0] BUG: a\n[ 1.1] Call trace: \n[ 1.2]  unwind_backtrace from show_stack+0x10/0x14\n\
[ 1.3]  show_stack from die+0x1/0x2 [m]\n[ 1.4] Code: e1a01001\n[ 1.5]  c from d+0x1/0x2\n",
            b"unwind_backtrace\nshow_stack\n",
        ),
        // a program's line within a trace; the stack of an interrupt
        (
            b"<4>BUG: a\n<4>Backtrace:\n<4> <IRQ>\n<4> b+0x1/0x2\n<12> c+0x1/0x2\n<4> </IRQ>\n<4> d+0x1/0x2\n<4>\n",
            b"b\nd\n",
        ),
        // no name, and nothing behind one: the trace begins further down
        (b"BUG: a\nCall Trace:\n +0x1/0x2\n b+0x1/0x2\n", b"b\n"),
        (
            b"BUG: a\nCall Trace:\n b\n c+0x1/0x2\n d\n e+0x1/0x2\n",
            b"c\n",
        ),
        // an address alone
        (b"BUG: a\n b+0x1/0x2\n 0x0 (P)\n c+0x1/0x2\n", b"b\nc\n"),
        // arm as it was before 5.16, PowerPC, and an entry of which s390 is unsure
        (
            b"BUG: a\n[<c0101234>] (b) from [<c0105678>] (c+0x10/0x20)\n[<c0105678>] (c) from [<0>] (0x0)\n",
            b"b\nc\n",
        ),
        (
            b"BUG: a\n[c0000000] [c0000001] b+0x24/0x40 (unreliable)\n[c0] [c1] c+0x1/0x2\n",
            b"b\nc\n",
        ),
        (
            b"BUG: a\n [<0001>] b+0x12/0x20 \n([<0002>] c+0x1/0x2)\n [<0003>] d+0x1/0x2\n",
            b"b\nd\n",
        ),
        (b"BUG: a\nCall Trace:\n b+0x", b"b\n"),
        (b"BUG: a\n", b""),
        (b"Call Trace:\n b+0x1/0x2\n", b""),
    ] {
        assert!(rt; are_names(rt.alloc(), text, wanted)?);
    }
    Ok(())
}

// Run with each allocation refused in turn: the answer is a want of memory, or the names.
#[test]
fn a_refused_growth_is_told(rt: HostRuntime) {
    match trace(rt.alloc(), STOCK) {
        Ok(names) => assert!(rt; names.len() == 10),
        Err(AllocError) => (),
    }
}
