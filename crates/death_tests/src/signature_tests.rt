// Signatures. A row marked `source` has the words of the kernel's sources, and was never seen from a real kernel.
use crate::records::{OOPS, PANIC, STOCK};
use death::*;
use std::alloc::{AllocError, Global};
use std::test::Fail;

pub fn is_signed(alloc: Global, text: &[u8], wanted: &[u8]) -> Result<bool, AllocError> {
    match death(text) {
        Some(found) => {
            let name = signature(alloc, text, &found)?;
            Ok(name.as_slice() == wanted)
        }
        None => Ok(false),
    }
}

#[test]
fn signatures_of_records(rt: HostRuntime) -> Result<(), Fail> {
    assert!(rt; is_signed(rt.alloc(), STOCK, b"kernel panic: sysrq triggered crash")?);
    assert!(rt; is_signed(rt.alloc(), PANIC, b"kernel panic: sysrq triggered crash")?);
    assert!(rt;
        is_signed(
            rt.alloc(),
            OOPS,
            b"BUG: kernel NULL pointer dereference in lkdtm_EXCEPTION"
        )?
    );
    Ok(())
}

#[test]
fn signatures_of_faults(rt: HostRuntime) -> Result<(), Fail> {
    for (text, wanted) in [
        // x86 and arm64: one fault, one signature
        (
            b"<1>[   11.9] BUG: kernel NULL pointer dereference, address: 0000000000000018\n\
<4>[   12.0] CPU: 0 PID: 134 Comm: boom Not tainted 6.1.0 #1\n<4>[   12.0] RIP: 0010:boom_deref+0x5/0x20 [boom]\n"
                .as_slice(),
            b"BUG: kernel NULL pointer dereference in boom_deref".as_slice(),
        ),
        (
            b"<1>[    2.2] Unable to handle kernel NULL pointer dereference at virtual address 0000000000000000\n\
<4>[    2.2] pc : lkdtm_ACCESS_NULL+0x28/0x70\n",
            b"BUG: kernel NULL pointer dereference in lkdtm_ACCESS_NULL",
        ),
        (
            b"BUG: unable to handle page fault for address: ffffc90000b5fff8\nRIP: 0010:f.isra.0+0x5/0x20\n",
            b"BUG: unable to handle kernel paging request in f",
        ),
        (
            b"Unable to handle kernel paging request at virtual address dead000000000122\npc : f.constprop.0+0x5/0x20\n",
            b"BUG: unable to handle kernel paging request in f",
        ),
        (
            b"Unable to handle kernel write to read-only memory at virtual address ffff800010000000\n\
pc : lkdtm_WRITE_RO+0x44/0x60\n",
            b"BUG: write to read-only memory in lkdtm_WRITE_RO",
        ),
        (
            b"kernel BUG at drivers/misc/boom.c:26!\nRIP: 0010:boom_write.cold+0x5/0x20 [boom]\n",
            b"kernel BUG in boom_write",
        ),
        (
            b"general protection fault, probably for non-canonical address 0xdead000000000122: 0000 [#1] SMP\n\
RIP: 0010:f.part.0+0x5/0x20\n",
            b"general protection fault in f",
        ),
        (
            b"Oops: general protection fault, probably for non-canonical address 0xdead000000000122: 0000 [#1] SMP\n\
RIP: 0010:f.llvm.123+0x5/0x20\n",
            b"general protection fault in f",
        ),
        (
            b"divide error: 0000 [#1] SMP\nRIP: 0010:f+0x5/0x20\n",
            b"divide error in f",
        ),
        (
            b"Oops: divide error: 0000 [#1] SMP\nRIP: 0010:f+0x5/0x20\n",
            b"divide error in f",
        ),
        (
            b"BUG: KASAN: slab-use-after-free in f+0x10/0x20\nRead of size 8 at addr ffff888004f3a000 by task sh/123\n",
            b"KASAN: slab-use-after-free in f",
        ),
        // source
        (
            b"BUG: KFENCE: use-after-free read in f+0xb3/0x143\nUse-after-free read at 0x0 (in kfence-#24):\n",
            b"KFENCE: use-after-free read in f",
        ),
        (
            b"BUG: KCSAN: data-race in f / g\nwrite to 0xffff8880 of 4 bytes by task 1 on cpu 0:\n f+0x1/0x2\n h+0x1/0x2\n",
            b"KCSAN: data-race in f",
        ),
        // the line names no function, and the report skips those that tell
        (
            b"UBSAN: array-index-out-of-bounds in drivers/x.c:12:3\nindex 9 is out of range\nCall Trace:\n\
 dump_stack_lvl+0x1/0x2\n __ubsan_handle_out_of_bounds+0x1/0x2\n f+0x1/0x2\n",
            b"UBSAN: array-index-out-of-bounds in f",
        ),
        (
            b"BUG: scheduling while atomic: name/123/0x00000002\nCall Trace:\n dump_stack_lvl+0x1/0x2\n f+0x1/0x2\n",
            b"BUG: scheduling while atomic in f",
        ),
        (
            b"Insufficient stack space to handle exception!\npc : boom_recurse.isra.0+0x1c/0x78 [boom]\n",
            b"kernel stack overflow in boom_recurse",
        ),
        // source: checks, and their messages above the head
        (
            b"------------[ cut here ]------------\nrefcount_t: underflow; use-after-free.\n\
WARNING: CPU: 0 PID: 7 at lib/refcount.c:28 refcount_warn_saturate+0xba/0x110\n\
RIP: 0010:refcount_warn_saturate+0xba/0x110\nCall Trace:\n <TASK>\n f+0x1/0x2\n",
            b"refcount bug in f",
        ),
        (
            b"list_add corruption. next->prev should be prev (1), but was 2. (next=3).\n\
------------[ cut here ]------------\nkernel BUG at lib/list_debug.c:29!\n\
RIP: 0010:__list_add_valid_or_report+0x5c/0xa0\nCall Trace:\n <TASK>\n f+0x1/0x2\n",
            b"list_add corruption in f",
        ),
        (
            b"usercopy: Kernel memory exposure attempt detected from SLUB object 'a' (offset 0, size 512)!\n\
------------[ cut here ]------------\nkernel BUG at mm/usercopy.c:102!\n\
RIP: 0010:usercopy_abort+0x6c/0x80\nCall Trace:\n <TASK>\n __check_heap_object+0x1/0x2\n __check_object_size+0x1/0x2\n f+0x1/0x2\n",
            b"usercopy: Kernel memory exposure attempt in f",
        ),
        (
            b"------------[ cut here ]------------\nDEBUG_LOCKS_WARN_ON(lock->magic != lock)\n\
WARNING: CPU: 0 PID: 7 at kernel/locking/mutex.c:580 f+0xba/0x110\nRIP: 0010:f+0xba/0x110\n",
            b"DEBUG_LOCKS_WARN_ON(lock->magic != lock) in f",
        ),
        (
            b"mce: [Hardware Error]: CPU 0: Machine Check Exception: 5 Bank 4: b200000000070f0f\n\
Kernel panic - not syncing: Fatal machine check\n",
            b"machine check",
        ),
        // without a function the kind alone
        (b"kernel BUG at drivers/misc/boom.c:26!\n", b"kernel BUG"),
        // source
        (
            b"Internal error: Oops - undefined instruction: 0 [#1] SMP ARM\nPC is at f+0x1/0x2\n",
            b"Oops - undefined instruction in f",
        ),
        (
            b"CPU 0 Unable to handle kernel paging request at virtual address 0, epc == 803aa75c\nepc   : 803aa75c f+0x10/0x20\n",
            b"BUG: unable to handle kernel paging request in f",
        ),
        (
            b"Unhandled fault: imprecise external abort (0x1c06) at 0x7e858b8c\n",
            b"Unhandled fault: imprecise external abort (..) at ..",
        ),
    ] {
        assert!(rt; is_signed(rt.alloc(), text, wanted)?);
    }
    Ok(())
}

#[test]
fn signatures_of_warnings(rt: HostRuntime) -> Result<(), Fail> {
    for (text, wanted) in [
        (
            b"WARNING: CPU: 0 PID: 27 at drivers/misc/lkdtm/bugs.c:117 lkdtm_WARNING_MESSAGE+0x30/0x3c\n".as_slice(),
            b"WARNING in lkdtm_WARNING_MESSAGE".as_slice(),
        ),
        // 6.14 and later
        (
            b"WARNING: drivers/misc/lkdtm/bugs.c:117 at lkdtm_WARNING_MESSAGE+0x30/0x3c, CPU#0: sh/27\n",
            b"WARNING in lkdtm_WARNING_MESSAGE",
        ),
        (
            b"watchdog: BUG: soft lockup - CPU#1 stuck for 5s! [crash_soft:134]\nRIP: 0010:boom_write+0x19b/0x380 [boom]\n",
            b"BUG: soft lockup in boom_write",
        ),
        (
            b"watchdog: Watchdog detected hard LOCKUP on cpu 3\nRIP: 0010:f+0x1/0x2\n",
            b"BUG: hard lockup in f",
        ),
        (
            b"INFO: task stuck:28 blocked for more than 5 seconds.\nCall trace:\n __switch_to+0x1/0x2\n __schedule+0x1/0x2\n\
 schedule+0x1/0x2\n lkdtm_HUNG_TASK+0x1/0x2\n",
            b"INFO: task hung in lkdtm_HUNG_TASK",
        ),
        (
            b"rcu: INFO: rcu_preempt self-detected stall on CPU\nRIP: 0010:f+0x1/0x2\n",
            b"INFO: rcu detected stall in f",
        ),
        (
            b"Out of memory: Killed process 28 (hungry) total-vm:123456kB\n",
            b"Out of memory: killed a process",
        ),
    ] {
        assert!(rt; is_signed(rt.alloc(), text, wanted)?);
    }
    Ok(())
}

#[test]
fn signatures_of_panics(rt: HostRuntime) -> Result<(), Fail> {
    for (text, wanted) in [
        (
            b"Kernel panic - not syncing: Attempted to kill init! exitcode=0x00000300\nCall trace:\n f+0x1/0x2\n".as_slice(),
            b"kernel panic: Attempted to kill init!".as_slice(),
        ),
        (
            b"Kernel panic - not syncing: Out of memory: compulsory panic_on_oom is enabled\nCall trace:\n f+0x1/0x2\n",
            b"kernel panic: Out of memory: compulsory panic_on_oom is enabled",
        ),
        (
            b"Kernel panic - not syncing: VFS: Unable to mount root fs on unknown-block(179,2)\n",
            b"kernel panic: VFS: Unable to mount root fs on unknown-block(..)",
        ),
        (
            b"Kernel panic - not syncing: VFS: Unable to mount root fs on \"/dev/sda1\" or unknown-block(8,1)\n",
            b"kernel panic: VFS: Unable to mount root fs on unknown-block(..)",
        ),
        (
            b"Kernel panic - not syncing: stack-protector: Kernel stack is corrupted in: f+0x50/0x58\n",
            b"kernel panic: stack is corrupted in f",
        ),
        // by hand: numbers, and digits in words
        (
            b"Kernel panic - not syncing: ext4 lost 0x1c,7-9 of _3 a1\n",
            b"kernel panic: ext4 lost ..-.. of _3 a1",
        ),
        (b"Kernel panic - not syncing\n", b"kernel panic"),
    ] {
        assert!(rt; is_signed(rt.alloc(), text, wanted)?);
    }
    Ok(())
}
