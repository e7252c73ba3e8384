// The forms of each architecture: what tells, and the function. A row marked `source` has the words of the kernel's
// sources, and was never seen from a real kernel.
use crate::death_tests::assert_told;
use death::*;

pub fn is_named(text: &[u8], telling: &[u8], function: &[u8]) -> bool {
    match death(text) {
        Some(found) => is_found(text, &found, telling, function),
        None => false,
    }
}

fn is_found(text: &[u8], found: &Death, telling: &[u8], function: &[u8]) -> bool {
    let named = match found.function {
        Some(span) => text.get(span.start..span.end).unwrap_or(b"?"),
        None => b"-",
    };
    text.get(found.telling.text..found.telling.end) == Some(telling) && named == function
}

#[test]
fn a_panic_of_arm(rt: HostRuntime) {
    // 6.1.192: no head above the trace
    assert_told(
        &rt,
        b"<0>[    2.653906] Kernel panic - not syncing: sysrq triggered crash\n\
<4>[    2.654418] CPU: 0 PID: 1 Comm: init Not tainted 6.1.192 #1 \n\
<4>[    2.654851] Hardware name: Generic DT based system\n\
<4>[    2.655691]  unwind_backtrace from show_stack+0x18/0x1c\n\
<4>[    2.656437]  show_stack from dump_stack_lvl+0x40/0x4c\n\
<4>[    2.656684]  dump_stack_lvl from panic+0x100/0x338\n\
<4>[    2.656974]  panic from sysrq_handle_crash+0x14/0x18\n\
<4>[    2.657310]  sysrq_handle_crash from __handle_sysrq+0xac/0x150\n",
        [
            b"Kernel panic - not syncing: sysrq triggered crash",
            b"-",
            b"0",
            b"PID: 1 Comm: init",
            b"Not tainted 6.1.192 #1 ",
            b"sysrq_handle_crash",
        ],
    );
}

#[test]
fn faults_of_architectures(rt: HostRuntime) {
    for (text, telling, function) in [
        // MIPS, source
        (
            b"CPU 0 Unable to handle kernel paging request at virtual address 0, epc == 803aa75c\n\
Oops[#1]:\nepc   : 803aa75c name+0x10/0x20\nra    : 803aa700 caller+0x8/0x20\n"
                .as_slice(),
            b"CPU 0 Unable to handle kernel paging request at virtual address 0, epc == 803aa75c".as_slice(),
            b"name+0x10/0x20".as_slice(),
        ),
        (
            b"Kernel bug detected[#1]:\nepc   : 803aa75c name+0x10/0x20\n",
            b"Kernel bug detected[#1]:",
            b"name+0x10/0x20",
        ),
        (
            b"Unhandled kernel unaligned access[#1]:\n",
            b"Unhandled kernel unaligned access[#1]:",
            b"-",
        ),
        // PowerPC, source
        (
            b"BUG: Kernel NULL pointer dereference on read at 0x0\nOops: Kernel access of bad area, sig: 11 [#1]\n\
NIP:  c00000 LR: c00001\nNIP [c0000000007a3f44] name+0x24/0x40\nLR [c0000000007a3f00] caller+0x8/0x40\n",
            b"BUG: Kernel NULL pointer dereference on read at 0x0",
            b"name+0x24/0x40",
        ),
        // s390, source
        (
            b"Unable to handle kernel pointer dereference in virtual kernel address space\nOops: 0004 ilc:2 [#1]SMP\n\
Krnl PSW : 0704d00180000000 000000000010b8f2 (name+0x12/0x20)\n",
            b"Unable to handle kernel pointer dereference in virtual kernel address space",
            b"name+0x12/0x20",
        ),
        (
            b"illegal operation: 0001 ilc:1 [#1]SMP\n",
            b"illegal operation: 0001 ilc:1 [#1]SMP",
            b"-",
        ),
        // LoongArch, source
        (
            b"CPU 1 Unable to handle kernel paging request at virtual address 0, era == 9000\nOops[#1]:\n\
   ERA: 9000000000223c84 name+0x1c/0x40\n",
            b"CPU 1 Unable to handle kernel paging request at virtual address 0, era == 9000",
            b"name+0x1c/0x40",
        ),
        // arm64, source: a jump to null, and a call of a helper
        (
            b"Unable to handle kernel execute from non-executable memory at virtual address 0\npc : 0x0\nlr : name+0x28/0x70\n",
            b"Unable to handle kernel execute from non-executable memory at virtual address 0",
            b"name+0x28/0x70",
        ),
        (
            b"Unexpected kernel BRK exception at EL1\nInternal error: BRK handler: 1 [#1] SMP\npc : name+0x28/0x70\n",
            b"Unexpected kernel BRK exception at EL1",
            b"name+0x28/0x70",
        ),
        (
            b"WARNING: CPU: 0 PID: 1 at lib/refcount.c:28 refcount_warn_saturate+0x1/0x2\npc : refcount_warn_saturate+0x1/0x2\n\
lr : refcount_warn_saturate+0x1/0x2\nCall trace:\n refcount_warn_saturate+0x1/0x2 (P)\n name+0x1/0x2\n",
            b"WARNING: CPU: 0 PID: 1 at lib/refcount.c:28 refcount_warn_saturate+0x1/0x2",
            b"name+0x1/0x2",
        ),
    ] {
        assert!(rt; is_named(text, telling, function));
    }
}

#[test]
fn faults_of_x86(rt: HostRuntime) {
    for (text, telling, function) in [
        // a jump to null, source
        (
            b"BUG: kernel NULL pointer dereference, address: 0\nOops: Oops: 0010 [#1] SMP\nRIP: 0010:0x0\n\
Call Trace:\n <TASK>\n ? __die_body+0x1a/0x60\n name+0x1/0x2\n"
                .as_slice(),
            b"BUG: kernel NULL pointer dereference, address: 0".as_slice(),
            b"name+0x1/0x2".as_slice(),
        ),
        // no place, source
        (
            b"BUG: scheduling while atomic: a/123/0x00000002\nCall Trace:\n <TASK>\n dump_stack_lvl+0x1/0x2\n\
 __schedule_bug+0x1/0x2\n",
            b"BUG: scheduling while atomic: a/123/0x00000002",
            b"__schedule_bug+0x1/0x2",
        ),
        // 32 bits, source
        (b"BUG: a\nEIP: name+0x5/0x20\n", b"BUG: a", b"name+0x5/0x20"),
        // kernels of 6.14 and later, source
        (
            b"WARNING: drivers/misc/a.c:117 at name+0x30/0x3c, CPU#0: b/27\nRIP: 0010:name+0x30/0x3c\n",
            b"WARNING: drivers/misc/a.c:117 at name+0x30/0x3c, CPU#0: b/27",
            b"name+0x30/0x3c",
        ),
        (
            b"UBSAN: array-index-out-of-bounds in drivers/x.c:12:3\nCall Trace:\n ubsan_epilogue+0x5/0x40\n\
 __ubsan_handle_out_of_bounds.cold+0x43/0x48\n name+0x1/0x2\n",
            b"UBSAN: array-index-out-of-bounds in drivers/x.c:12:3",
            b"name+0x1/0x2",
        ),
        (
            b"Oops: divide error: 0000 [#1] SMP\nRIP: 0010:name+0x5/0x20\n",
            b"Oops: divide error: 0000 [#1] SMP",
            b"name+0x5/0x20",
        ),
    ] {
        assert!(rt; is_named(text, telling, function));
    }
}

// The kernel's own ways to die are not to blame. All are from the sources.
#[test]
fn frames_by_which_a_kernel_dies(rt: HostRuntime) {
    for (text, telling, function) in [
        (
            b"Kernel panic - not syncing: NMI: Not continuing\nCall Trace:\n <NMI>\n dump_stack_lvl+0x1/0x2\n\
 panic+0x1/0x2\n nmi_panic.cold+0xc/0xc\n name+0x1/0x2\n"
                .as_slice(),
            b"Kernel panic - not syncing: NMI: Not continuing".as_slice(),
            b"name+0x1/0x2".as_slice(),
        ),
        (
            b"Kernel panic - not syncing: a\nCall Trace:\n panic+0x1/0x2\n check_panic_on_warn+0x1/0x2\n\
 __stack_chk_fail+0x1/0x2\n name+0x1/0x2\n",
            b"Kernel panic - not syncing: a",
            b"name+0x1/0x2",
        ),
        (
            b"Kernel panic - not syncing: a\nCall trace:\n panic+0x1/0x2\n oops_end+0x1/0x2\n die+0x1/0x2\n\
 page_fault_oops+0x1/0x2\n name+0x1/0x2\n",
            b"Kernel panic - not syncing: a",
            b"name+0x1/0x2",
        ),
    ] {
        assert!(rt; is_named(text, telling, function));
    }
}
