// The rows of the tables that no other log has, each in a log of its own. The words are those of the kernel's sources,
// in the directory that a row names; none of these was seen from a real kernel.
use crate::cause_tests::is_telling;
use crate::death_tests::assert_line;
use crate::form_tests::is_named;
use crate::signature_tests::is_signed;
use std::test::Fail;

#[test]
fn words_of_faults(rt: HostRuntime) {
    for (text, telling, function) in [
        // arch/x86: each is an oops of its own, also within another's report
        (
            b"BUG: a\ndouble fault: 0000 [#1] SMP\nRIP: 0010:name+0x5/0x20\n".as_slice(),
            b"double fault: 0000 [#1] SMP".as_slice(),
            b"name+0x5/0x20".as_slice(),
        ),
        (
            b"BUG: a\nOops: double fault: 0000 [#1] SMP\nRIP: 0010:name+0x5/0x20\n",
            b"Oops: double fault: 0000 [#1] SMP",
            b"name+0x5/0x20",
        ),
        (
            b"BUG: a\nstack segment: 0000 [#1] SMP\nRIP: 0010:name+0x5/0x20\n",
            b"stack segment: 0000 [#1] SMP",
            b"name+0x5/0x20",
        ),
        (
            b"BUG: a\nOops: stack segment: 0000 [#1] SMP\nRIP: 0010:name+0x5/0x20\n",
            b"Oops: stack segment: 0000 [#1] SMP",
            b"name+0x5/0x20",
        ),
        (
            b"BUG: a\ngeneral protection fault: 0000 [#1] SMP\nRIP: 0010:name+0x5/0x20\n",
            b"general protection fault: 0000 [#1] SMP",
            b"name+0x5/0x20",
        ),
        (
            b"BUG: a\nOops: general protection fault: 0000 [#1] SMP\nRIP: 0010:name+0x5/0x20\n",
            b"Oops: general protection fault: 0000 [#1] SMP",
            b"name+0x5/0x20",
        ),
        (
            b"BUG: a\ndivide error: 0000 [#1] SMP\nRIP: 0010:name+0x5/0x20\n",
            b"divide error: 0000 [#1] SMP",
            b"name+0x5/0x20",
        ),
        (
            b"BUG: a\nOops: divide error: 0000 [#1] SMP\nRIP: 0010:name+0x5/0x20\n",
            b"Oops: divide error: 0000 [#1] SMP",
            b"name+0x5/0x20",
        ),
        // these are the head of the report that the line of the bug opened
        (
            b"kernel BUG at a.c:1!\ninvalid opcode: 0000 [#1] SMP\nRIP: 0010:name+0x5/0x20\n",
            b"kernel BUG at a.c:1!",
            b"name+0x5/0x20",
        ),
        (
            b"kernel BUG at a.c:1!\nOops: invalid opcode: 0000 [#1] SMP\nRIP: 0010:name+0x5/0x20\n",
            b"kernel BUG at a.c:1!",
            b"name+0x5/0x20",
        ),
        // alone they tell
        (
            b"invalid opcode: 0000 [#1] SMP\nRIP: 0010:name+0x5/0x20\n",
            b"invalid opcode: 0000 [#1] SMP",
            b"name+0x5/0x20",
        ),
        (
            b"Oops: invalid opcode: 0000 [#1] SMP\nRIP: 0010:name+0x5/0x20\n",
            b"Oops: invalid opcode: 0000 [#1] SMP",
            b"name+0x5/0x20",
        ),
        // arch/x86/xen
        (
            b"BUG: kernel NULL pointer dereference, address: 0\nRIP: e030:name+0x5/0x20\n",
            b"BUG: kernel NULL pointer dereference, address: 0",
            b"name+0x5/0x20",
        ),
        // arch/arm64, before 5.15
        (
            b"Bad mode in Error handler detected on CPU0, code 0xbf000000 -- SError\npc : name+0x28/0x70\n",
            b"Bad mode in Error handler detected on CPU0, code 0xbf000000 -- SError",
            b"name+0x28/0x70",
        ),
        // arch/mips
        (
            b"Break instruction in kernel code[#1]:\nepc   : 803aa75c name+0x10/0x20\n",
            b"Break instruction in kernel code[#1]:",
            b"name+0x10/0x20",
        ),
        (
            b"Reserved instruction in kernel code[#1]:\nepc   : 803aa75c name+0x10/0x20\n",
            b"Reserved instruction in kernel code[#1]:",
            b"name+0x10/0x20",
        ),
        (
            b"Trap instruction in kernel code[#1]:\nepc   : 803aa75c name+0x10/0x20\n",
            b"Trap instruction in kernel code[#1]:",
            b"name+0x10/0x20",
        ),
        // arch/s390
        (
            b"specification exception: 0006 ilc:2 [#1]SMP\nKrnl PSW : 0704d00180000000 000000000010b8f2 (name+0x12/0x20)\n",
            b"specification exception: 0006 ilc:2 [#1]SMP",
            b"name+0x12/0x20",
        ),
        (
            b"addressing exception: 0005 ilc:2 [#1]SMP\nKrnl PSW : 0704d00180000000 000000000010b8f2 (name+0x12/0x20)\n",
            b"addressing exception: 0005 ilc:2 [#1]SMP",
            b"name+0x12/0x20",
        ),
        // arch/loongarch: a jump to null, and where it would have returned to
        (
            b"CPU 0 Unable to handle kernel paging request at virtual address 0, era == 0\nOops[#1]:\n\
   ERA: 0000000000000000 0x0\n    RA: 9000000000223c84 name+0x1c/0x40\n",
            b"CPU 0 Unable to handle kernel paging request at virtual address 0, era == 0",
            b"name+0x1c/0x40",
        ),
    ] {
        assert!(rt; is_named(text, telling, function));
    }
}

#[test]
fn words_of_warnings(rt: HostRuntime) {
    for line in [
        b"WARNING: /home/a/b.c:117 at name+0x30/0x3c".as_slice(),
        b"WARNING: ./include/linux/a.h:117 at name+0x30/0x3c",
        b"WARNING: arch/x86/a.c:117 at name+0x30/0x3c",
        b"WARNING: block/a.c:117 at name+0x30/0x3c",
        b"WARNING: crypto/a.c:117 at name+0x30/0x3c",
        b"WARNING: drivers/a.c:117 at name+0x30/0x3c",
        b"WARNING: fs/a.c:117 at name+0x30/0x3c",
        b"WARNING: include/linux/a.h:117 at name+0x30/0x3c",
        b"WARNING: init/a.c:117 at name+0x30/0x3c",
        b"WARNING: io_uring/a.c:117 at name+0x30/0x3c",
        b"WARNING: ipc/a.c:117 at name+0x30/0x3c",
        b"WARNING: kernel/a.c:117 at name+0x30/0x3c",
        b"WARNING: lib/a.c:117 at name+0x30/0x3c",
        b"WARNING: mm/a.c:117 at name+0x30/0x3c",
        b"WARNING: net/a.c:117 at name+0x30/0x3c",
        b"WARNING: security/a.c:117 at name+0x30/0x3c",
        b"WARNING: sound/a.c:117 at name+0x30/0x3c",
        b"WARNING: virt/a.c:117 at name+0x30/0x3c",
        // of a module from outside the tree, with a condition, without file and function
        b"WARNING: boom.c:12 at name+0x30/0x3c [boom], CPU#0: b/27",
        b"WARNING: [p == q] boom.c:12 at name+0x30/0x3c [boom], CPU#0: b/27",
        b"WARNING: [p == q] drivers/a.c:117 at name+0x30/0x3c, CPU#0: b/27",
        b"WARNING: CPU#0: b/27",
        // kernel/rcu, before 5.0
        b"INFO: rcu_sched self-detected stall on CPU",
    ] {
        assert_line(&rt, line, line);
    }
}

#[test]
fn rows_of_causes(rt: HostRuntime) {
    for (text, telling) in [
        // kernel/watchdog.c
        (
            b"NMI watchdog: BUG: soft lockup - CPU#1 stuck for 22s! [a:12]\nBUG: b\n---[ end trace 0 ]---\n\
Kernel panic - not syncing: softlockup: hung tasks\n"
                .as_slice(),
            b"NMI watchdog: BUG: soft lockup - CPU#1 stuck for 22s! [a:12]".as_slice(),
        ),
        (
            b"Watchdog detected hard LOCKUP on cpu 0\nBUG: b\n---[ end trace 0 ]---\nKernel panic - not syncing: Hard LOCKUP\n",
            b"Watchdog detected hard LOCKUP on cpu 0",
        ),
        (
            b"Watchdog detected hard LOCKUP on cpu 0\nBUG: b\n---[ end trace 0 ]---\n\
Kernel panic - not syncing: Watchdog detected hard LOCKUP on cpu 0\n",
            b"Watchdog detected hard LOCKUP on cpu 0",
        ),
        // mm/kasan
        (
            b"BUG: KASAN: slab-use-after-free in a+0x10/0x20\nKernel panic - not syncing: kasan.fault=panic set ...\n",
            b"BUG: KASAN: slab-use-after-free in a+0x10/0x20",
        ),
        // kernel/sched
        (
            b"BUG: scheduling while atomic: a/12/0x00000002\n\
Kernel panic - not syncing: scheduling while atomic: panic_on_warn set ...\n",
            b"BUG: scheduling while atomic: a/12/0x00000002",
        ),
        // arch/x86/kernel/cpu/mce, arch/x86/kernel/traps.c
        (
            b"mce: [Hardware Error]: CPU 0: Machine Check Exception: 5 Bank 4: b200000000070f0f\n\
Kernel panic - not syncing: Fatal Machine check\n",
            b"mce: [Hardware Error]: CPU 0: Machine Check Exception: 5 Bank 4: b200000000070f0f",
        ),
        (
            b"mce: [Hardware Error]: CPU 0: Machine Check Exception: 5 Bank 4: b200000000070f0f\n\
Kernel panic - not syncing: Machine halted.\n",
            b"mce: [Hardware Error]: CPU 0: Machine Check Exception: 5 Bank 4: b200000000070f0f",
        ),
    ] {
        assert!(rt; is_telling(text, telling));
    }
}

#[test]
fn kinds_of_bugs(rt: HostRuntime) -> Result<(), Fail> {
    for (text, wanted) in [
        // mm
        (
            b"BUG: KMSAN: uninit-value in f+0x10/0x20\n".as_slice(),
            b"KMSAN: uninit-value in f".as_slice(),
        ),
        (
            b"BUG: Bad page state in process sh  pfn:12345\nCall Trace:\n dump_stack_lvl+0x1/0x2\n f+0x1/0x2\n",
            b"BUG: Bad page state in f",
        ),
        // lib/list_debug.c
        (
            b"list_del corruption. prev->next should be 1, but was 2\n------------[ cut here ]------------\n\
kernel BUG at lib/list_debug.c:62!\nRIP: 0010:__list_del_entry_valid_or_report+0x5c/0xa0\nCall Trace:\n f+0x1/0x2\n",
            b"list_del corruption in f",
        ),
        // arch/x86, before 5.1
        (
            b"BUG: unable to handle kernel NULL pointer dereference at 0000000000000018\nRIP: 0010:f+0x5/0x20\n",
            b"BUG: kernel NULL pointer dereference in f",
        ),
        (
            b"BUG: unable to handle kernel paging request at ffffc90000b5fff8\nRIP: 0010:f+0x5/0x20\n",
            b"BUG: unable to handle kernel paging request in f",
        ),
        (
            b"BUG: TASK stack guard page was hit at ffffc90000b5fff8 (stack is ffffc90000b60000..ffffc90000b63fff)\n\
RIP: 0010:f+0x5/0x20\n",
            b"kernel stack overflow in f",
        ),
        (
            b"BUG: stack guard page was hit at ffffc90000b5fff8 (stack is ffffc90000b60000..ffffc90000b63fff)\n\
RIP: 0010:f+0x5/0x20\n",
            b"kernel stack overflow in f",
        ),
        // kernel, lib
        (
            b"BUG: workqueue lockup - pool cpus=1 node=0 flags=0x0 nice=0 stuck for 32s!\n",
            b"BUG: workqueue lockup",
        ),
        (
            b"BUG: spinlock bad magic on CPU#0, sh/12\nCall Trace:\n dump_stack_lvl+0x1/0x2\n f+0x1/0x2\n",
            b"BUG: spinlock bad magic in f",
        ),
        (
            b"BUG: using smp_processor_id() in preemptible [00000000] code: sh/12\nCall Trace:\n dump_stack_lvl+0x1/0x2\n\
 f+0x1/0x2\n",
            b"BUG: using smp_processor_id() in f",
        ),
        (
            b"BUG: sleeping function called from invalid context at mm/a.c:12\nCall Trace:\n dump_stack_lvl+0x1/0x2\n\
 f+0x1/0x2\n",
            b"BUG: sleeping function called from invalid context in f",
        ),
    ] {
        assert!(rt; is_signed(rt.alloc(), text, wanted)?);
    }
    Ok(())
}

#[test]
fn kinds_of_hangs(rt: HostRuntime) -> Result<(), Fail> {
    for (text, wanted) in [
        (
            b"NMI watchdog: BUG: soft lockup - CPU#1 stuck for 22s! [a:12]\nRIP: 0010:f+0x1/0x2\n".as_slice(),
            b"BUG: soft lockup in f".as_slice(),
        ),
        (
            b"watchdog: CPU0: Watchdog detected hard LOCKUP on cpu 3\nRIP: 0010:f+0x1/0x2\n",
            b"BUG: hard lockup in f",
        ),
        (
            b"NMI watchdog: Watchdog detected hard LOCKUP on cpu 3\nRIP: 0010:f+0x1/0x2\n",
            b"BUG: hard lockup in f",
        ),
        (
            b"Watchdog detected hard LOCKUP on cpu 3\nRIP: 0010:f+0x1/0x2\n",
            b"BUG: hard lockup in f",
        ),
        (
            b"INFO: task a:10 blocked in I/O wait for more than 120 seconds.\nCall Trace:\n io_schedule+0x1/0x2\n f+0x1/0x2\n",
            b"INFO: task hung in f",
        ),
        (
            b"INFO: rcu_sched self-detected stall on CPU\nRIP: 0010:f+0x1/0x2\n",
            b"INFO: rcu detected stall in f",
        ),
        // the line names the function
        (
            b"WARNING: at f+0x30/0x3c, CPU#0: b/27\nRIP: 0010:g+0x30/0x3c\n",
            b"WARNING in f",
        ),
        (
            b"WARNING: boom.c:12 at f+0x30/0x3c [boom], CPU#0: b/27\nRIP: 0010:g+0x30/0x3c\n",
            b"WARNING in f",
        ),
        (
            b"WARNING: [p == q] drivers/a.c:117 at f+0x30/0x3c, CPU#0: b/27\nRIP: 0010:g+0x30/0x3c\n",
            b"WARNING in f",
        ),
        // it names none
        (
            b"WARNING: CPU#0: b/27\nRIP: 0010:g+0x30/0x3c\n",
            b"WARNING in g",
        ),
    ] {
        assert!(rt; is_signed(rt.alloc(), text, wanted)?);
    }
    Ok(())
}

#[test]
fn kinds_of_oopses(rt: HostRuntime) -> Result<(), Fail> {
    for (text, wanted) in [
        // arch/x86
        (
            b"double fault: 0000 [#1] SMP\nRIP: 0010:f+0x5/0x20\n".as_slice(),
            b"double fault in f".as_slice(),
        ),
        (
            b"Oops: double fault: 0000 [#1] SMP\nRIP: 0010:f+0x5/0x20\n",
            b"double fault in f",
        ),
        (
            b"stack segment: 0000 [#1] SMP\nRIP: 0010:f+0x5/0x20\n",
            b"stack segment in f",
        ),
        (
            b"Oops: stack segment: 0000 [#1] SMP\nRIP: 0010:f+0x5/0x20\n",
            b"stack segment in f",
        ),
        (
            b"invalid opcode: 0000 [#1] SMP\nRIP: 0010:f+0x5/0x20\n",
            b"invalid opcode in f",
        ),
        (
            b"Oops: invalid opcode: 0000 [#1] SMP\nRIP: 0010:f+0x5/0x20\n",
            b"invalid opcode in f",
        ),
        (b"Oops: 0002 [#1] SMP\nRIP: 0010:f+0x5/0x20\n", b"Oops in f"),
        // arch/arm64
        (
            b"SError Interrupt on CPU0, code 0x00000000be000000 -- SError\npc : f+0x28/0x70\n",
            b"SError Interrupt in f",
        ),
        (
            b"Internal error: Oops - BUG: 00000000f2000800 [#1] SMP\npc : f+0x28/0x70\n",
            b"kernel BUG in f",
        ),
        (
            b"Internal error: Oops: 0000000096000006 [#1] SMP\npc : f+0x28/0x70\n",
            b"Oops in f",
        ),
        (
            b"Internal error: SP/PC alignment exception: 000000008a000000 [#1] SMP\npc : f+0x28/0x70\n",
            b"SP/PC alignment exception in f",
        ),
        // arch/arm: the number of a fault
        (
            b"Internal error: Oops: 805 [#1] SMP ARM\nPC is at f+0x20/0x40\n",
            b"Oops in f",
        ),
        // arch/riscv
        (
            b"Oops - illegal instruction [#1]\nepc : f+0x10/0x20\n",
            b"Oops - illegal instruction in f",
        ),
        // arch/mips
        (b"Oops[#1]:\nepc   : 803aa75c f+0x10/0x20\n", b"Oops in f"),
        (
            b"Kernel bug detected[#1]:\nepc   : 803aa75c f+0x10/0x20\n",
            b"kernel BUG in f",
        ),
        (
            b"Unhandled kernel unaligned access[#1]:\nepc   : 803aa75c f+0x10/0x20\n",
            b"Unhandled kernel unaligned access in f",
        ),
    ] {
        assert!(rt; is_signed(rt.alloc(), text, wanted)?);
    }
    Ok(())
}
