// Panics that something else caused: logs of real kernels, cut to the lines that count, and rows by hand.
use crate::death_tests::{assert_line, assert_told};
use death::*;

// Debian's 6.12.117 for arm64.
const HUNG: &[u8] = b"\
<3>[   19.935450] INFO: task stuck:126 blocked for more than 5 seconds.\n\
<3>[   19.936069]       Tainted: G           OE      6.12.117+deb13-cloud-arm64 #1 Debian 6.12.117-1\n\
<3>[   19.936356] \"echo 0 > /proc/sys/kernel/hung_task_timeout_secs\" disables this message.\n\
<6>[   19.936570] task:stuck           state:D stack:0     pid:126   tgid:126   ppid:1      flags:0x00000004\n\
<6>[   19.937612] Call trace:\n\
<6>[   19.937947]  __switch_to+0xf4/0x168\n\
<6>[   19.938518]  __schedule+0x398/0xf10\n\
<6>[   19.938626]  schedule+0x30/0xf8\n\
<6>[   19.938692]  boom_write+0x2bc/0x468 [boom]\n\
<6>[   19.939276]  proc_reg_write+0xa4/0x100\n\
<6>[   19.939903]  el0t_64_sync+0x190/0x198\n\
<0>[   19.940336] Kernel panic - not syncing: hung_task: blocked tasks\n\
<4>[   19.940797] CPU: 0 UID: 0 PID: 26 Comm: khungtaskd Tainted: G           OE      6.12.117+deb13-cloud-arm64 #1  Debian 6.12.117-1\n\
<4>[   19.941310] Call trace:\n\
<4>[   19.941384]  dump_backtrace+0xd8/0x130\n\
<4>[   19.941468]  show_stack+0x20/0x38\n\
<4>[   19.941529]  dump_stack_lvl+0x60/0x80\n\
<4>[   19.941600]  dump_stack+0x18/0x28\n\
<4>[   19.941665]  panic+0x160/0x378\n\
<4>[   19.941725]  watchdog+0x2b4/0x560\n\
<4>[   19.941880]  kthread+0xe8/0xf8\n";

#[test]
fn a_task_that_hangs(rt: HostRuntime) {
    assert_told(
        &rt,
        HUNG,
        [
            b"INFO: task stuck:126 blocked for more than 5 seconds.",
            b"Kernel panic - not syncing: hung_task: blocked tasks",
            b"-",
            b"stuck:126",
            b"Tainted: G           OE      6.12.117+deb13-cloud-arm64 #1 Debian 6.12.117-1",
            b"boom_write+0x2bc/0x468 [boom]",
        ],
    );
}

// Debian's 6.12.117 for x86-64.
const SOFT: &[u8] = b"\
<0>[   12.318263] watchdog: BUG: soft lockup - CPU#0 stuck for 5s! [crash_soft:139]\n\
<4>[   12.319271] CPU: 0 UID: 0 PID: 139 Comm: crash_soft Tainted: G           OE      6.12.117+deb13-cloud-amd64 #1  Debian 6.12.117-1\n\
<4>[   12.319712] RIP: 0010:boom_write+0x19b/0x380 [boom]\n\
<4>[   12.320684] Call Trace:\n\
<4>[   12.321405]  <TASK>\n\
<4>[   12.337094]  proc_reg_write+0x5a/0xa0\n\
<4>[   12.338110]  </TASK>\n\
<0>[   12.338392] Kernel panic - not syncing: softlockup: hung tasks\n\
<4>[   12.341623] CPU: 0 UID: 0 PID: 139 Comm: crash_soft Tainted: G           OEL     6.12.117+deb13-cloud-amd64 #1  Debian 6.12.117-1\n\
<4>[   12.382352] Call Trace:\n\
<4>[   12.382579]  <IRQ>\n\
<4>[   12.382641]  dump_stack_lvl+0x5d/0x80\n\
<4>[   12.382734]  panic+0x118/0x2db\n\
<4>[   12.382808]  watchdog_timer_fn.cold+0x9a/0xa1\n\
<4>[   12.382911]  ? __pfx_watchdog_timer_fn+0x10/0x10\n\
<4>[   12.382995]  __hrtimer_run_queues+0x12d/0x240\n\
<4>[   12.383083]  hrtimer_interrupt+0xfa/0x210\n";

#[test]
fn a_soft_lockup(rt: HostRuntime) {
    assert_told(
        &rt,
        SOFT,
        [
            b"watchdog: BUG: soft lockup - CPU#0 stuck for 5s! [crash_soft:139]",
            b"Kernel panic - not syncing: softlockup: hung tasks",
            b"0",
            b"UID: 0 PID: 139 Comm: crash_soft",
            b"Tainted: G           OE      6.12.117+deb13-cloud-amd64 #1  Debian 6.12.117-1",
            b"boom_write+0x19b/0x380 [boom]",
        ],
    );
}

// 6.12.117 for arm64.
const INIT: &[u8] = b"\
<1>[    2.250877] Unable to handle kernel NULL pointer dereference at virtual address 0000000000000000\n\
<0>[    2.254647] Internal error: Oops: 0000000096000006 [#1] SMP\n\
<4>[    2.255692] CPU: 0 UID: 0 PID: 1 Comm: init Not tainted 6.12.117 #1 \n\
<4>[    2.256636] pc : lkdtm_ACCESS_NULL+0x28/0x70\n\
<4>[    2.257622] lr : lkdtm_ACCESS_NULL+0x28/0x70\n\
<4>[    2.259959] Call trace:\n\
<4>[    2.260197]  lkdtm_ACCESS_NULL+0x28/0x70\n\
<4>[    2.278381] ---[ end trace 0000000000000000 ]---\n\
<0>[    2.344856] Kernel panic - not syncing: Attempted to kill init! exitcode=0x0000000b\n\
<0>[    2.345458] Kernel Offset: disabled\n";

#[test]
fn an_oops_of_process_1(rt: HostRuntime) {
    assert_told(
        &rt,
        INIT,
        [
            b"Unable to handle kernel NULL pointer dereference at virtual address 0000000000000000",
            b"Kernel panic - not syncing: Attempted to kill init! exitcode=0x0000000b",
            b"0",
            b"UID: 0 PID: 1 Comm: init",
            b"Not tainted 6.12.117 #1 ",
            b"lkdtm_ACCESS_NULL+0x28/0x70",
        ],
    );
}

// By hand: init exits by itself, and another process had an oops.
#[test]
fn an_oops_of_another_process(rt: HostRuntime) {
    assert_line(
        &rt,
        b"BUG: a\nCPU: 0 PID: 12 Comm: b\n---[ end trace 0 ]---\nKernel panic - not syncing: Attempted to kill init! exitcode=0x00000300\n",
        b"Kernel panic - not syncing: Attempted to kill init! exitcode=0x00000300",
    );
    assert_told(
        &rt,
        b"BUG: a\nCPU: 0 PID: 1 Comm: b\n---[ end trace 0 ]---\nBUG: c\nCPU: 0 PID: 7 Comm: d\n---[ end trace 0 ]---\n\
Kernel panic - not syncing: Attempted to kill init! exitcode=0x0000000b\n",
        [
            b"BUG: a",
            b"Kernel panic - not syncing: Attempted to kill init! exitcode=0x0000000b",
            b"0",
            b"PID: 1 Comm: b",
            b"-",
            b"-",
        ],
    );
}

// By hand, in the words of the kernel's sources: each panic, and the line above that is told for it.
#[test]
fn causes_by_hand(rt: HostRuntime) {
    for (text, telling) in [
        (
            b"WARNING: CPU: 0 PID: 27 at a.c:117 b+0x30/0x3c\nKernel panic - not syncing: kernel: panic_on_warn set ...\n".as_slice(),
            b"WARNING: CPU: 0 PID: 27 at a.c:117 b+0x30/0x3c".as_slice(),
        ),
        // its report has ended
        (
            b"WARNING: CPU: 0\n---[ end trace 0 ]---\nKernel panic - not syncing: kernel: panic_on_warn set ...\n",
            b"Kernel panic - not syncing: kernel: panic_on_warn set ...",
        ),
        (
            b"BUG: KASAN: a\nKernel panic - not syncing: KASAN: panic_on_warn set ...\n",
            b"BUG: KASAN: a",
        ),
        (
            b"BUG: KFENCE: a\nKernel panic - not syncing: KFENCE: panic_on_warn set ...\n",
            b"BUG: KFENCE: a",
        ),
        (
            b"BUG: KCSAN: a\nKernel panic - not syncing: KCSAN: panic_on_warn set ...\n",
            b"BUG: KCSAN: a",
        ),
        (
            b"Insufficient stack space to handle exception!\nKernel panic - not syncing: kernel stack overflow\n",
            b"Insufficient stack space to handle exception!",
        ),
        (
            b"SError Interrupt on CPU0, code 0x1\nKernel panic - not syncing: Asynchronous SError Interrupt\n",
            b"SError Interrupt on CPU0, code 0x1",
        ),
        (
            b"rcu: INFO: rcu_preempt self-detected stall on CPU\nBUG: a\n---[ end trace 0 ]---\nKernel panic - not syncing: RCU Stall\n",
            b"rcu: INFO: rcu_preempt self-detected stall on CPU",
        ),
        (
            b"NMI watchdog: Watchdog detected hard LOCKUP on cpu 0\nKernel panic - not syncing: Hard LOCKUP\n",
            b"NMI watchdog: Watchdog detected hard LOCKUP on cpu 0",
        ),
        // source
        (
            b"mce: [Hardware Error]: CPU 0: Machine Check Exception: 5 Bank 4: b200000000070f0f\n\
mce: [Hardware Error]: TSC 0\nKernel panic - not syncing: Fatal machine check\n",
            b"mce: [Hardware Error]: CPU 0: Machine Check Exception: 5 Bank 4: b200000000070f0f",
        ),
        // the lines that were its cause are lost
        (
            b"Kernel panic - not syncing: Hard LOCKUP\n",
            b"Kernel panic - not syncing: Hard LOCKUP",
        ),
    ] {
        assert!(rt; is_telling(text, telling));
    }
}

pub fn is_telling(text: &[u8], telling: &[u8]) -> bool {
    match death(text) {
        Some(found) => text.get(found.telling.text..found.telling.end) == Some(telling),
        None => false,
    }
}

// 6.12.117 for arm64: the call that panics never returns, so the trace has the next function's name.
#[test]
fn the_next_function(rt: HostRuntime) {
    let text = b"<0>[    3.815526] Kernel panic - not syncing: sysrq triggered crash\n\
<4>[    3.817231] Call trace:\n\
<4>[    3.818865]  panic+0x14c/0x350\n\
<4>[    3.819035]  sysrq_reset_seq_param_set+0x0/0x94\n\
<4>[    3.819298]  __handle_sysrq+0xcc/0x158\n";
    assert_told(
        &rt,
        text,
        [
            b"Kernel panic - not syncing: sysrq triggered crash",
            b"-",
            b"-",
            b"-",
            b"-",
            b"sysrq_reset_seq_param_set+0x0/0x94",
        ],
    );
    assert!(rt; is_next(text));
    // a place is sure
    assert!(rt; !is_next(b"BUG: a\nRIP: 0010:b+0x0/0x94\n"));
    assert!(rt; !is_next(SOFT));
}

fn is_next(text: &[u8]) -> bool {
    match death(text) {
        Some(found) => found.is_next,
        None => false,
    }
}

fn has_message(text: &[u8], wanted: &[u8]) -> bool {
    match death(text) {
        Some(found) => message_of(text, &found) == wanted,
        None => false,
    }
}

fn message_of<'a>(text: &'a [u8], found: &Death) -> &'a [u8] {
    match found.message {
        Some(line) => text.get(line.text..line.end).unwrap_or(b"?"),
        None => b"-",
    }
}

// The words of the kernel's sources (lib/refcount.c, lib/list_debug.c, mm/usercopy.c, kernel/panic.c); none was seen
// from a real kernel.
#[test]
fn messages_above_their_heads(rt: HostRuntime) {
    for (text, wanted) in [
        (
            b"------------[ cut here ]------------\nrefcount_t: underflow; use-after-free.\n\
WARNING: CPU: 0 PID: 7 at lib/refcount.c:28 refcount_warn_saturate+0xba/0x110\n"
                .as_slice(),
            b"refcount_t: underflow; use-after-free.".as_slice(),
        ),
        // any message of a warning
        (
            b"------------[ cut here ]------------\na: b\nWARNING: CPU: 0 PID: 7 at a.c:28 c+0xba/0x110\n",
            b"a: b",
        ),
        (
            b"list_del corruption. prev->next should be 1, but was 2\n------------[ cut here ]------------\n\
kernel BUG at lib/list_debug.c:62!\n",
            b"list_del corruption. prev->next should be 1, but was 2",
        ),
        (
            b"usercopy: Kernel memory exposure attempt detected from SLUB object 'a' (offset 0, size 512)!\n\
------------[ cut here ]------------\nkernel BUG at mm/usercopy.c:102!\n",
            b"usercopy: Kernel memory exposure attempt detected from SLUB object 'a' (offset 0, size 512)!",
        ),
        // no message: a warning without one, another line above, a fault that has none
        (
            b"a\n------------[ cut here ]------------\nWARNING: CPU: 0 PID: 7 at a.c:28 c+0xba/0x110\n",
            b"-",
        ),
        (
            b"a\nb\nWARNING: CPU: 0 PID: 7 at a.c:28 c+0xba/0x110\n",
            b"-",
        ),
        (
            b"a\n------------[ cut here ]------------\nkernel BUG at a.c:1!\n",
            b"-",
        ),
        (b"refcount_t: a\nb\nBUG: c\n", b"-"),
    ] {
        assert!(rt; has_message(text, wanted));
    }
}
