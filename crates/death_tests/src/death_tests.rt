// Logs, and what is told of each: the telling line, the panic behind it, processor, task, kernel and function.
use crate::records::{CONSOLE, OOPS, PANIC, STOCK};
use death::*;
use std::process::Abort;

fn text_of(text: &[u8], line: Line) -> &[u8] {
    text.get(line.text..line.end).unwrap_or(b"?")
}

fn part_of(text: &[u8], span: Option<Span>) -> &[u8] {
    match span {
        Some(span) => text.get(span.start..span.end).unwrap_or(b"?"),
        None => b"-",
    }
}

fn second_of(text: &[u8], line: Option<Line>) -> &[u8] {
    match line {
        Some(line) => text_of(text, line),
        None => b"-",
    }
}

fn is_told(text: &[u8], found: &Death, wanted: &[&[u8]; 6]) -> bool {
    let [telling, second, cpu, task, kernel, function] = *wanted;
    text_of(text, found.telling) == telling
        && second_of(text, found.second) == second
        && part_of(text, found.cpu) == cpu
        && part_of(text, found.task) == task
        && part_of(text, found.kernel) == kernel
        && part_of(text, found.function) == function
}

// `-` stands for a part that is not there.
pub fn assert_told(rt: &impl Abort, text: &[u8], wanted: [&[u8]; 6]) {
    match death(text) {
        Some(found) => assert!(rt; is_told(text, &found, &wanted)),
        None => panic!(rt; "nothing tells"),
    }
}

// Only the telling line is named.
pub fn assert_line(rt: &impl Abort, text: &[u8], telling: &[u8]) {
    assert_told(rt, text, [telling, b"-", b"-", b"-", b"-", b"-"]);
}

#[test]
fn a_panic_by_sysrq(rt: HostRuntime) {
    assert_told(
        &rt,
        STOCK,
        [
            b"Kernel panic - not syncing: sysrq triggered crash",
            b"-",
            b"0",
            b"PID: 1 Comm: init",
            b"Not tainted 6.1.0-56-cloud-amd64 #1  Debian 6.1.192-2",
            b"sysrq_handle_crash+0x16/0x20",
        ],
    );
}

#[test]
fn an_oops_of_x86(rt: HostRuntime) {
    assert_told(
        &rt,
        OOPS,
        [
            b"BUG: kernel NULL pointer dereference, address: 0000000000000000",
            b"-",
            b"0",
            b"PID: 40 Comm: init",
            b"Tainted: G      D            6.1.192 #4 ",
            b"lkdtm_EXCEPTION+0x8/0x14 [lkdtm]",
        ],
    );
}

// The kernel prints neither processor nor trace below a panic that follows an oops. The oops's `RIP: ` is not its own.
#[test]
fn a_panic_after_an_oops(rt: HostRuntime) {
    let line = b"Kernel panic - not syncing: sysrq triggered crash";
    assert_line(&rt, PANIC, line);
    assert_line(&rt, CONSOLE, line);
}

#[test]
fn an_oops_of_arm64(rt: HostRuntime) {
    let text =
        b"<1>[   41.120001][  T214] Unable to handle kernel NULL pointer dereference at virtual address 0000000000000008\n\
<1>[   41.120010][  T214] Mem abort info:\n\
<1>[   41.120012][  T214]   ESR = 0x0000000096000004\n\
<0>[   41.120044][  T214] Internal error: Oops: 0000000096000004 [#1] PREEMPT SMP\n\
<4>[   41.120050][  T214] Modules linked in: lkdtm\n\
<4>[   41.120071][  T214] CPU: 3 PID: 214 Comm: kworker/3:2 Kdump: loaded Tainted: G        W          6.1.55 #7\n\
<4>[   41.120075][  T214] Hardware name: linux,dummy-virt (DT)\n\
<4>[   41.120080][  T214] pstate: 60400005 (nZCv daif +PAN -UAO -TCO -DIT -SSBS BTYPE=--)\n\
<4>[   41.120090][  T214] pc : ext4_writepages+0x1c/0xd30 [ext4]\n\
<4>[   41.120095][  T214] lr : do_writepages+0x80/0x1e0\n\
<4>[   41.120200][  T214] ---[ end trace 0000000000000000 ]---\n";
    assert_told(
        &rt,
        text,
        [
            b"Unable to handle kernel NULL pointer dereference at virtual address 0000000000000008",
            b"-",
            b"3",
            b"PID: 214 Comm: kworker/3:2",
            b"Kdump: loaded Tainted: G        W          6.1.55 #7",
            b"ext4_writepages+0x1c/0xd30 [ext4]",
        ],
    );
}

#[test]
fn an_oops_of_arm(rt: HostRuntime) {
    let text = b"[   12.345678] 8<--- cut here ---\n\
[   12.345690] Unable to handle kernel NULL pointer dereference at virtual address 00000000 when write\n\
[   12.345700] [00000000] *pgd=00000000\n\
[   12.345710] Internal error: Oops: 805 [#1] SMP ARM\n\
[   12.345720] CPU: 1 PID: 77 Comm: my task Not tainted 6.6.1 #12\n\
[   12.345730] Hardware name: ARM-Versatile Express\n\
[   12.345740] PC is at lkdtm_WRITE_KERN+0x20/0x40\n\
[   12.345750] LR is at lkdtm_do_action+0x1c/0x2c\n\
[   12.345760] pc : [<c0a81234>]    lr : [<c0a80f00>]    psr: 60000013\n";
    assert_told(
        &rt,
        text,
        [
            b"Unable to handle kernel NULL pointer dereference at virtual address 00000000 when write",
            b"-",
            b"1",
            b"PID: 77 Comm: my task",
            b"Not tainted 6.6.1 #12",
            b"lkdtm_WRITE_KERN+0x20/0x40",
        ],
    );
}

#[test]
fn an_oops_of_riscv(rt: HostRuntime) {
    let text =
        b"<1>[    7.000001] Unable to handle kernel access to user memory without uaccess routines at virtual address 00000000000000f0\n\
<0>[    7.000010] Oops [#1]\n\
<4>[    7.000020] CPU: 2 UID: 0 PID: 90 Comm: sh Not tainted 6.12.0 #3\n\
<4>[    7.000030] epc : virtqueue_add+0x3a/0x8e0\n\
<4>[    7.000040]  ra : virtqueue_add_sgs+0x6a/0x92\n\
<4>[    7.000050] epc : ffffffff80401234 ra : ffffffff80405678 sp : ff2000000000bb10\n";
    assert_told(
        &rt,
        text,
        [
            b"Unable to handle kernel access to user memory without uaccess routines at virtual address 00000000000000f0",
            b"-",
            b"2",
            b"UID: 0 PID: 90 Comm: sh",
            b"Not tainted 6.12.0 #3",
            b"virtqueue_add+0x3a/0x8e0",
        ],
    );
}

// The oops is told, and the panic that it led to. An oops that the machine survived stands above.
#[test]
fn a_fatal_exception(rt: HostRuntime) {
    let text =
        b"<1>[    1.000000] BUG: kernel NULL pointer dereference, address: 0000000000000010\n\
<4>[    1.000001] Oops: Oops: 0000 [#1] PREEMPT SMP\n\
<4>[    1.000002] CPU: 0 UID: 0 PID: 5 Comm: first Not tainted 6.12.0 #1\n\
<4>[    1.000003] RIP: 0010:first_fault+0x1/0x2\n\
<4>[    1.000004] ---[ end trace 0000000000000000 ]---\n\
<4>[    2.000000] Oops: general protection fault, probably for non-canonical address 0xdead000000000100: 0000 [#2] PREEMPT SMP\n\
<4>[    2.000001] CPU: 1 UID: 0 PID: 6 Comm: swapper/1 Tainted: G      D            6.12.0 #1\n\
<4>[    2.000002] Tainted: [D]=DIE\n\
<4>[    2.000003] RIP: 0010:__list_del_entry_valid_or_report+0x33/0x100\n\
<4>[    2.000003] Call Trace:\n\
<4>[    2.000003]  <IRQ>\n\
<4>[    2.000003]  ? __die_body+0x1a/0x60\n\
<4>[    2.000003]  detach_timer+0x20/0xa0\n\
<4>[    2.000004] ---[ end trace 0000000000000000 ]---\n\
<4>[    2.000005] RIP: 0010:first_fault+0x1/0x2\n\
<0>[    2.000006] Kernel panic - not syncing: Fatal exception in interrupt\n\
<0>[    2.000007] ---[ end Kernel panic - not syncing: Fatal exception in interrupt ]---\n";
    assert_told(
        &rt,
        text,
        [
            b"Oops: general protection fault, probably for non-canonical address 0xdead000000000100: 0000 [#2] PREEMPT SMP",
            b"Kernel panic - not syncing: Fatal exception in interrupt",
            b"1",
            b"UID: 0 PID: 6 Comm: swapper/1",
            b"Tainted: G      D            6.12.0 #1",
            b"detach_timer+0x20/0xa0",
        ],
    );
}

// Without a line that names the fault, the oops's head is the cause, and not the fault of an oops that the machine
// survived. arm64 says first what was fatal.
#[test]
fn a_fatal_exception_by_the_head_of_an_oops(rt: HostRuntime) {
    let text =
        b"[    2.000000] Unable to handle kernel paging request at virtual address dead000000000100\n\
[    2.000001] Internal error: Oops: 0000000096000004 [#1] SMP\n\
[    2.000002] CPU: 1 PID: 8 Comm: first Not tainted 6.1.0 #1\n\
[    2.000003] pc : first_fault+0x4/0x8\n\
[    2.000004] ---[ end trace 0000000000000000 ]---\n\
[    3.000000] Internal error: Oops - Undefined instruction: 0000000002000000 [#2] SMP\n\
[    3.000001] CPU: 4 PID: 9 Comm: a Not tainted 6.1.0 #1\n\
[    3.000002] pc : do_undefinstr+0x4/0x8\n\
[    3.000003] ---[ end trace 0000000000000000 ]---\n\
[    3.000004] Kernel panic - not syncing: Oops - Undefined instruction: Fatal exception\n";
    assert_told(
        &rt,
        text,
        [
            b"Internal error: Oops - Undefined instruction: 0000000002000000 [#2] SMP",
            b"Kernel panic - not syncing: Oops - Undefined instruction: Fatal exception",
            b"4",
            b"PID: 9 Comm: a",
            b"Not tainted 6.1.0 #1",
            b"do_undefinstr+0x4/0x8",
        ],
    );
    // the same without a panic
    assert_told(
        &rt,
        b"BUG: a\nOops: b\npc : c+0x1/0x2\n---[ end trace 0 ]---\nOops - d [#2]\nOops: e\npc : f+0x1/0x2\n",
        [b"Oops - d [#2]", b"-", b"-", b"-", b"-", b"f+0x1/0x2"],
    );
    // the oops is lost: the panic tells
    assert_line(
        &rt,
        b"<0>[    3.1] Kernel panic - not syncing: Fatal exception\n",
        b"Kernel panic - not syncing: Fatal exception",
    );
}

// The line of `BUG()` says more than the head of its oops.
#[test]
fn a_bug_in_the_code(rt: HostRuntime) {
    let text = b"<4>[    9.000000] ------------[ cut here ]------------\n\
<2>[    9.000001] kernel BUG at fs/ext4/inode.c:2721!\n\
<4>[    9.000002] invalid opcode: 0000 [#1] PREEMPT SMP NOPTI\n\
<4>[    9.000003] CPU: 7 PID: 300 Comm: kworker/u16:1 Not tainted 5.15.0 #1\n\
<4>[    9.000004] RIP: 0010:ext4_writepages+0xb41/0xfd0\n\
<4>[    9.000005] ---[ end trace 0000000000000000 ]---\n";
    assert_told(
        &rt,
        text,
        [
            b"kernel BUG at fs/ext4/inode.c:2721!",
            b"-",
            b"7",
            b"PID: 300 Comm: kworker/u16:1",
            b"Not tainted 5.15.0 #1",
            b"ext4_writepages+0xb41/0xfd0",
        ],
    );
}

#[test]
fn a_warning_alone(rt: HostRuntime) {
    let text = b"<4>[    5.000000] ------------[ cut here ]------------\n\
<4>[    5.000001] WARNING: CPU: 0 PID: 1 at kernel/sched/core.c:42 first_warned+0x1/0x2\n\
<4>[    5.000002] CPU: 0 PID: 1 Comm: init Not tainted 6.1.0 #1\n\
<4>[    5.000003] RIP: 0010:first_warned+0x1/0x2\n\
<4>[    5.000004] ---[ end trace 0000000000000000 ]---\n\
<4>[    6.000000] ------------[ cut here ]------------\n\
<4>[    6.000001] WARNING: CPU: 2 PID: 31 at mm/page_alloc.c:5534 __alloc_pages+0x2/0x3\n\
<4>[    6.000002] CPU: 2 PID: 31 Comm: modprobe Tainted: G        W          6.1.0 #1\n\
<4>[    6.000003] RIP: 0010:__alloc_pages+0x2/0x3\n\
<4>[    6.000004] ---[ end trace 0000000000000000 ]---\n";
    assert_told(
        &rt,
        text,
        [
            b"WARNING: CPU: 2 PID: 31 at mm/page_alloc.c:5534 __alloc_pages+0x2/0x3",
            b"-",
            b"2",
            b"PID: 31 Comm: modprobe",
            b"Tainted: G        W          6.1.0 #1",
            b"__alloc_pages+0x2/0x3",
        ],
    );
}

// A processor that the panic cannot stop warns below it, or has an oops: that report is another.
#[test]
fn another_report_below_a_panic(rt: HostRuntime) {
    let panic = b"Kernel panic - not syncing: hung_task: blocked tasks";
    assert_line(
        &rt,
        b"[    8.0] Kernel panic - not syncing: hung_task: blocked tasks\n\
[    8.1] WARNING: CPU: 1 PID: 0 at arch/x86/kernel/smp.c:127 native_smp_send_reschedule+0x5c/0x60\n\
[    8.2] CPU: 1 PID: 0 Comm: swapper/1 Not tainted 4.4.0 #1\n\
[    8.3] RIP: 0010:native_smp_send_reschedule+0x5c/0x60\n",
        panic,
    );
    assert_line(
        &rt,
        b"[    8.0] Kernel panic - not syncing: hung_task: blocked tasks\n\
[    8.1] ---[ end Kernel panic - not syncing: hung_task: blocked tasks ]---\n\
[    8.2] CPU: 1 PID: 0 Comm: swapper/1 Not tainted 4.4.0 #1\n",
        panic,
    );
    assert_line(
        &rt,
        b"[    8.0] Kernel panic - not syncing: hung_task: blocked tasks\n\
[    8.1] Internal error: Oops - BUG: 0 [#1] SMP\n\
[    8.2] CPU: 1 PID: 0 Comm: swapper/1 Not tainted 4.4.0 #1\n\
[    8.3] pc : below+0x5c/0x60\n",
        panic,
    );
}

// A panic comes before an oops, and an oops before a warning, wherever they stand. The fault tells an oops, and its
// head only if no fault is above it.
#[test]
fn rows_come_before_one_another(rt: HostRuntime) {
    let lines = b"Kernel panic - not syncing: a\nUnhandled fault: b\nOops - c\nOut of memory: d\n";
    assert_line(&rt, lines, b"Kernel panic - not syncing: a");
    assert_line(&rt, &lines[30..], b"Unhandled fault: b");
    assert_line(&rt, &lines[49..], b"Oops - c");
    assert_line(&rt, &lines[58..], b"Out of memory: d");
    assert_line(
        &rt,
        b"Oops: 1\nBUG: 2\nOops: 3\nBUG: 4\nOops: 5\n",
        b"BUG: 4",
    );
}

// The number of a level below 8 is the kernel's own; a program's lines have 8 or more.
#[test]
fn a_program_tells_nothing(rt: HostRuntime) {
    assert!(rt; death(b"<12>[    4.0] BUG: of a program\n").is_none());
    assert!(rt; death(b"<8>BUG: of a program\n").is_none());
    assert_line(&rt, b"<7>BUG: 1\n<14>BUG: 2\n", b"BUG: 1");
    assert_line(
        &rt,
        b"[    4.0] BUG: no level is printed\n",
        b"BUG: no level is printed",
    );
}

#[test]
fn nothing_tells(rt: HostRuntime) {
    for text in [
        b"".as_slice(),
        b"\n",
        b"\n\n\r\n",
        b"<6>[    0.000000] Linux version 6.1.0\n",
        b"a line that says BUG: within\n",
        b"BUG",
        b"<4",
        b"[    1.0",
        b"\x00\xff\xfe<4>\x80\n<>BUG: \n",
    ] {
        assert!(rt; death(text).is_none());
    }
}

// The front of a dump is cut where its room began, and its end where the machine stopped.
#[test]
fn a_cut_text(rt: HostRuntime) {
    let text =
        b"l panic - not syncing: cut\n<4>[    1.0] Oops: 0002 [#1] SMP\n<4>[    1.1] CPU: 0 PID: 40 Co";
    assert_told(
        &rt,
        text,
        [
            b"Oops: 0002 [#1] SMP",
            b"-",
            b"0",
            b"PID: 40 Co",
            b"-",
            b"-",
        ],
    );
    assert_line(&rt, b"BUG: 1\nCPU: ", b"BUG: 1");
    assert_told(
        &rt,
        b"BUG: 1\nCPU: 12",
        [b"BUG: 1", b"-", b"12", b"-", b"-", b"-"],
    );
    assert_line(&rt, b"BUG: 1\nRIP: 0010:", b"BUG: 1");
    assert_line(&rt, b"BUG: ", b"BUG: ");
}

#[test]
fn lines_of_a_serial_console(rt: HostRuntime) {
    let text =
        b"[    1.0] Oops: 0002 [#1] SMP\r\n[    1.1] CPU: 0 PID: 40 Comm: a Not tainted 6.1 #1\r\n[    1.2] RIP: 0010:b+0x1/0x2\r\n";
    assert_told(
        &rt,
        text,
        [
            b"Oops: 0002 [#1] SMP",
            b"-",
            b"0",
            b"PID: 40 Comm: a",
            b"Not tainted 6.1 #1",
            b"b+0x1/0x2",
        ],
    );
}

// Nothing is blamed where the trace names none but the kernel's own way to die.
#[test]
fn a_panic_without_a_caller(rt: HostRuntime) {
    assert_line(
        &rt,
        b"Kernel panic - not syncing: a\nCall Trace:\n <TASK>\n dump_stack+0x1/0x2\n panic+0x1/0x2\n ? b+0x1/0x2\n",
        b"Kernel panic - not syncing: a",
    );
    assert_line(
        &rt,
        b"Kernel panic - not syncing: a\nCall Trace:\n vpanic+0x1/0x2\n",
        b"Kernel panic - not syncing: a",
    );
}
