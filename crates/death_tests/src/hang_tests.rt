// Processors and tasks that hang, in the words of newer kernels: strings of Linux 7.2.13 for x86-64, and the sources of
// kernel/watchdog.c and kernel/hung_task.c. No record of such a kernel was seen.
use crate::cause_tests::is_telling;
use crate::death_tests::{assert_line, assert_told};
use crate::form_tests::is_named;
use crate::trace_tests::are_names;
use death::*;
use std::test::Fail;

// Processor 0 saw that processor 3 is stuck, and had it print its trace.
const HARD: &[u8] = b"\
<0>[   30.100001] watchdog: CPU0: Watchdog detected hard LOCKUP on cpu 3\n\
<4>[   30.100002] Modules linked in: boom(OE)\n\
<6>[   30.100003] Sending NMI from CPU 0 to CPUs 3:\n\
<4>[   30.100004] NMI backtrace for cpu 3\n\
<4>[   30.100005] CPU: 3 UID: 0 PID: 139 Comm: crash_hard Tainted: G           OE       7.2.13 #1 PREEMPT(lazy)\n\
<4>[   30.100006] RIP: 0010:boom_write+0x19b/0x380 [boom]\n\
<4>[   30.100007] Call Trace:\n\
<4>[   30.100008]  <TASK>\n\
<4>[   30.100009]  proc_reg_write+0x5a/0xa0\n\
<4>[   30.100010]  </TASK>\n\
<0>[   30.100011] Kernel panic - not syncing: Hard LOCKUP\n\
<4>[   30.100012] CPU: 0 UID: 0 PID: 0 Comm: swapper/0 Tainted: G           OE       7.2.13 #1 PREEMPT(lazy)\n";

#[test]
fn a_hard_lockup(rt: HostRuntime) {
    assert_told(
        &rt,
        HARD,
        [
            b"watchdog: CPU0: Watchdog detected hard LOCKUP on cpu 3",
            b"Kernel panic - not syncing: Hard LOCKUP",
            b"3",
            b"UID: 0 PID: 139 Comm: crash_hard",
            b"Tainted: G           OE       7.2.13 #1 PREEMPT(lazy)",
            b"boom_write+0x19b/0x380 [boom]",
        ],
    );
}

fn is_on(text: &[u8], telling: &[u8], cpu: &[u8]) -> bool {
    match death(text) {
        Some(found) => {
            text.get(found.telling.text..found.telling.end) == Some(telling)
                && cpu_of(text, &found) == cpu
        }
        None => false,
    }
}

fn cpu_of<'a>(text: &'a [u8], found: &Death) -> &'a [u8] {
    match found.cpu {
        Some(span) => text.get(span.start..span.end).unwrap_or(b"?"),
        None => b"-",
    }
}

// A lockup's line names the processor. If it does not, the report does, as of any other death.
#[test]
fn processors_of_lockups(rt: HostRuntime) {
    for (text, telling, cpu) in [
        (
            b"watchdog: CPU12: Watchdog detected hard LOCKUP on cpu 7\n".as_slice(),
            b"watchdog: CPU12: Watchdog detected hard LOCKUP on cpu 7".as_slice(),
            b"7".as_slice(),
        ),
        (
            b"watchdog: CPU1: Watchdog detected hard LOCKUP on cpu 130",
            b"watchdog: CPU1: Watchdog detected hard LOCKUP on cpu 130",
            b"130",
        ),
        // 6.12, 6.1
        (
            b"watchdog: Watchdog detected hard LOCKUP on cpu 3\n",
            b"watchdog: Watchdog detected hard LOCKUP on cpu 3",
            b"3",
        ),
        (
            b"NMI watchdog: Watchdog detected hard LOCKUP on cpu 3\n",
            b"NMI watchdog: Watchdog detected hard LOCKUP on cpu 3",
            b"3",
        ),
        (
            b"Watchdog detected hard LOCKUP on cpu 3\n",
            b"Watchdog detected hard LOCKUP on cpu 3",
            b"3",
        ),
        // soft lockups; the second log is cut
        (
            b"watchdog: BUG: soft lockup - CPU#12 stuck for 22s! [a:1]\n",
            b"watchdog: BUG: soft lockup - CPU#12 stuck for 22s! [a:1]",
            b"12",
        ),
        (
            b"watchdog: BUG: soft lockup - CPU#",
            b"watchdog: BUG: soft lockup - CPU#",
            b"-",
        ),
        // the line names none
        (
            b"watchdog: CPU0: Watchdog detected hard LOCKUP\nCPU: 2 PID: 9 Comm: a Not tainted 7.2.13 #1\n",
            b"watchdog: CPU0: Watchdog detected hard LOCKUP",
            b"2",
        ),
        (
            b"watchdog: Watchdog detected hard LOCKUP on cpu ?\nCPU: 2 PID: 9 Comm: a Not tainted 7.2.13 #1\n",
            b"watchdog: Watchdog detected hard LOCKUP on cpu ?",
            b"2",
        ),
        // no lockup
        (
            b"BUG: a on cpu 3\nCPU: 2 PID: 9 Comm: a Not tainted 7.2.13 #1\n",
            b"BUG: a on cpu 3",
            b"2",
        ),
    ] {
        assert!(rt; is_on(text, telling, cpu));
    }
}

// A lockup's report ends where another processor writes of itself. By hand.
#[test]
fn reports_of_other_processors(rt: HostRuntime) {
    for (text, wanted) in [
        // the stuck processor printed nothing
        (
            b"watchdog: CPU0: Watchdog detected hard LOCKUP on cpu 1\nCPU: 0 PID: 9 Comm: a Not tainted 7.2.13 #1\n\
RIP: 0010:f+0x1/0x2\nCall Trace:\n g+0x1/0x2\n"
                .as_slice(),
            [
                b"watchdog: CPU0: Watchdog detected hard LOCKUP on cpu 1".as_slice(),
                b"-",
                b"1",
                b"-",
                b"-",
                b"-",
            ],
        ),
        (
            b"watchdog: Watchdog detected hard LOCKUP on cpu 1\nCPU: 0 PID: 9 Comm: a Not tainted 6.12.0 #1\nlr : f+0x1/0x2\n",
            [
                b"watchdog: Watchdog detected hard LOCKUP on cpu 1",
                b"-",
                b"1",
                b"-",
                b"-",
                b"-",
            ],
        ),
        (
            b"watchdog: Watchdog detected hard LOCKUP on cpu 1\nCPU: 11 PID: 9 Comm: a Not tainted 6.12.0 #1\n\
Call Trace:\n g+0x1/0x2\n",
            [
                b"watchdog: Watchdog detected hard LOCKUP on cpu 1",
                b"-",
                b"1",
                b"-",
                b"-",
                b"-",
            ],
        ),
        (
            b"watchdog: BUG: soft lockup - CPU#12 stuck for 22s! [a:1]\nCPU: 1 PID: 9 Comm: a Not tainted 6.12.0 #1\n\
RIP: 0010:f+0x1/0x2\n",
            [
                b"watchdog: BUG: soft lockup - CPU#12 stuck for 22s! [a:1]",
                b"-",
                b"12",
                b"-",
                b"-",
                b"-",
            ],
        ),
        // it printed, and then another did
        (
            b"watchdog: CPU0: Watchdog detected hard LOCKUP on cpu 1\nCPU: 1 PID: 8 Comm: b Not tainted 7.2.13 #1\n\
CPU: 0 PID: 9 Comm: a Not tainted 7.2.13 #1\nRIP: 0010:f+0x1/0x2\nCall Trace:\n g+0x1/0x2\n",
            [
                b"watchdog: CPU0: Watchdog detected hard LOCKUP on cpu 1",
                b"-",
                b"1",
                b"PID: 8 Comm: b",
                b"Not tainted 7.2.13 #1",
                b"-",
            ],
        ),
        // the numbers agree
        (
            b"watchdog: CPU0: Watchdog detected hard LOCKUP on cpu 1\nCPU: 1 PID: 8 Comm: b Not tainted 7.2.13 #1\n\
RIP: 0010:f+0x1/0x2\nCall Trace:\n g+0x1/0x2\nCPU: 0 PID: 9 Comm: a Not tainted 7.2.13 #1\nRIP: 0010:h+0x1/0x2\n",
            [
                b"watchdog: CPU0: Watchdog detected hard LOCKUP on cpu 1",
                b"-",
                b"1",
                b"PID: 8 Comm: b",
                b"Not tainted 7.2.13 #1",
                b"f+0x1/0x2",
            ],
        ),
        // another printed first
        (
            b"watchdog: CPU0: Watchdog detected hard LOCKUP on cpu 1\nCPU: 0 PID: 9 Comm: a Not tainted 7.2.13 #1\n\
RIP: 0010:f+0x1/0x2\nCPU: 1 PID: 8 Comm: b Not tainted 7.2.13 #1\nRIP: 0010:h+0x1/0x2\nCPU: 2 PID: 7 Comm: c\n",
            [
                b"watchdog: CPU0: Watchdog detected hard LOCKUP on cpu 1",
                b"-",
                b"1",
                b"PID: 8 Comm: b",
                b"Not tainted 7.2.13 #1",
                b"h+0x1/0x2",
            ],
        ),
        // two reports between one another
        (
            b"watchdog: BUG: soft lockup - CPU#2 stuck for 22s! [b:20]\nCPU: 2 UID: 0 PID: 20 Comm: b Not tainted 6.12.0 #1\n\
watchdog: BUG: soft lockup - CPU#1 stuck for 22s! [a:10]\nRIP: 0010:g+0x1/0x2\n\
CPU: 1 UID: 0 PID: 10 Comm: a Not tainted 6.12.0 #1\nRIP: 0010:f+0x1/0x2\n\
Kernel panic - not syncing: softlockup: hung tasks\n",
            [
                b"watchdog: BUG: soft lockup - CPU#1 stuck for 22s! [a:10]",
                b"Kernel panic - not syncing: softlockup: hung tasks",
                b"1",
                b"UID: 0 PID: 10 Comm: a",
                b"Not tainted 6.12.0 #1",
                b"f+0x1/0x2",
            ],
        ),
        // the own line stands below the next report
        (
            b"watchdog: BUG: soft lockup - CPU#1 stuck for 22s! [a:10]\nRIP: 0010:g+0x1/0x2\n\
WARNING: CPU: 1 PID: 10 at a.c:1 f+0x1/0x2\nKernel panic - not syncing: softlockup: hung tasks\n\
CPU: 1 PID: 10 Comm: a Not tainted 6.12.0 #1\n",
            [
                b"watchdog: BUG: soft lockup - CPU#1 stuck for 22s! [a:10]",
                b"Kernel panic - not syncing: softlockup: hung tasks",
                b"1",
                b"-",
                b"-",
                b"g+0x1/0x2",
            ],
        ),
        // the line names none: the report tells
        (
            b"watchdog: Watchdog detected hard LOCKUP on cpu ?\nCPU: 2 PID: 9 Comm: a Not tainted 7.2.13 #1\n\
RIP: 0010:f+0x1/0x2\n",
            [
                b"watchdog: Watchdog detected hard LOCKUP on cpu ?",
                b"-",
                b"2",
                b"PID: 9 Comm: a",
                b"Not tainted 7.2.13 #1",
                b"f+0x1/0x2",
            ],
        ),
        // the report names none
        (
            b"watchdog: Watchdog detected hard LOCKUP on cpu 1\nCPU: PID: 9 Comm: a Not tainted 7.2.13 #1\n\
RIP: 0010:f+0x1/0x2\n",
            [
                b"watchdog: Watchdog detected hard LOCKUP on cpu 1",
                b"-",
                b"1",
                b"PID: 9 Comm: a",
                b"Not tainted 7.2.13 #1",
                b"f+0x1/0x2",
            ],
        ),
        // no lockup
        (
            b"BUG: a on cpu 1\nCPU: 2 PID: 9 Comm: a Not tainted 7.2.13 #1\nRIP: 0010:f+0x1/0x2\n",
            [
                b"BUG: a on cpu 1",
                b"-",
                b"2",
                b"PID: 9 Comm: a",
                b"Not tainted 7.2.13 #1",
                b"f+0x1/0x2",
            ],
        ),
    ] {
        assert_told(&rt, text, wanted);
    }
}

#[test]
fn traces_of_other_processors(rt: HostRuntime) -> Result<(), Fail> {
    for (text, wanted) in [
        (
            b"watchdog: CPU0: Watchdog detected hard LOCKUP on cpu 1\nCPU: 0 PID: 9\nCall Trace:\n g+0x1/0x2\n".as_slice(),
            b"".as_slice(),
        ),
        (
            b"watchdog: CPU0: Watchdog detected hard LOCKUP on cpu 1\nCPU: 1 PID: 9\nCall Trace:\n g+0x1/0x2\n",
            b"g\n",
        ),
        (
            b"watchdog: CPU0: Watchdog detected hard LOCKUP\nCPU: 0 PID: 9\nCall Trace:\n g+0x1/0x2\n",
            b"g\n",
        ),
    ] {
        assert!(rt; are_names(rt.alloc(), text, wanted)?);
    }
    Ok(())
}

// A stall of RCU lists the processors that stall. Its own thread, which got none, prints its trace before theirs.
const STALL: &[u8] = b"\
<3>[   47.900001] rcu: INFO: rcu_preempt self-detected stall on CPU\n\
<3>[   47.900002] rcu: \t1-....: (20999 ticks this GP) idle=4e74/1/0x4000000000000000 softirq=95/95 fqs=1\n\
<3>[   47.900003] rcu: \t(t=21000 jiffies g=-899 q=7 ncpus=4)\n\
<3>[   47.900004] rcu: rcu_preempt kthread starved for 20998 jiffies! g-899 f0x0 RCU_GP_WAIT_FQS(5) ->state=0x0 ->cpu=2\n\
<3>[   47.900005] rcu: RCU grace-period kthread stack dump:\n\
<6>[   47.900006] task:rcu_preempt     state:R  running task     stack:0     pid:15    ppid:2      flags:0x00004000\n\
<6>[   47.900007] Call Trace:\n\
<6>[   47.900008]  __schedule+0x3e8/0xac0\n\
<6>[   47.900009]  rcu_gp_fqs_loop+0x11a/0x5c0\n\
<3>[   47.900010] rcu: Stack dump where RCU GP kthread last ran:\n\
<4>[   47.900011] CPU: 2 PID: 0 Comm: swapper/2 Not tainted 6.1.0 #1\n\
<4>[   47.900012] RIP: 0010:default_idle+0x1/0x2\n\
<4>[   47.900013] CPU: 1 PID: 134 Comm: sh Not tainted 6.1.0 #1\n\
<4>[   47.900014] RIP: 0010:boom_write+0x19b/0x380 [boom]\n\
<4>[   47.900015] Call Trace:\n\
<4>[   47.900016]  proc_reg_write+0x5a/0xa0\n\
<0>[   47.900017] Kernel panic - not syncing: RCU Stall\n";

// By hand, from kernel/rcu/tree_stall.h.
#[test]
fn a_stall(rt: HostRuntime) -> Result<(), Fail> {
    assert_told(
        &rt,
        STALL,
        [
            b"rcu: INFO: rcu_preempt self-detected stall on CPU",
            b"Kernel panic - not syncing: RCU Stall",
            b"1",
            b"PID: 134 Comm: sh",
            b"Not tainted 6.1.0 #1",
            b"boom_write+0x19b/0x380 [boom]",
        ],
    );
    assert!(rt; are_names(rt.alloc(), STALL, b"proc_reg_write\n")?);
    Ok(())
}

#[test]
fn processors_that_stall(rt: HostRuntime) {
    for (text, telling, cpu) in [
        // the first that is listed
        (
            b"rcu: INFO: rcu_preempt detected stalls on CPUs/tasks:\nrcu: \t12-...!: (0 ticks this GP)\nrcu: \t3-...!: (1 GPs behind)\n\
CPU: 0 PID: 9 Comm: a Not tainted 6.1.0 #1\n"
                .as_slice(),
            b"rcu: INFO: rcu_preempt detected stalls on CPUs/tasks:".as_slice(),
            b"12".as_slice(),
        ),
        // before 4.20
        (
            b"[    1.5] INFO: rcu_sched self-detected stall on CPU\n[    1.5] \t2-...: (5250 ticks this GP)\nCPU: 0 PID: 9 Comm: a\n",
            b"INFO: rcu_sched self-detected stall on CPU",
            b"2",
        ),
        // the list names none: the report tells
        (
            b"rcu: INFO: rcu_preempt detected stalls on CPUs/tasks:\nrcu: \tTasks blocked on level-0 rcu_node (CPUs 0-3): P36\n\
CPU: 2 PID: 9 Comm: a Not tainted 6.1.0 #1\n",
            b"rcu: INFO: rcu_preempt detected stalls on CPUs/tasks:",
            b"2",
        ),
        (
            b"rcu: INFO: rcu_preempt self-detected stall on CPU\nrcu: \t1....: (20999 ticks this GP)\nCPU: 2 PID: 9 Comm: a\n",
            b"rcu: INFO: rcu_preempt self-detected stall on CPU",
            b"2",
        ),
        (
            b"rcu: INFO: rcu_preempt self-detected stall on CPU\nrcu: \t-....: (20999 ticks this GP)\nCPU: 2 PID: 9 Comm: a\n",
            b"rcu: INFO: rcu_preempt self-detected stall on CPU",
            b"2",
        ),
        // it is no stall
        (
            b"BUG: a\nrcu: \t1-....: (20999 ticks this GP)\nCPU: 2 PID: 9 Comm: a\n",
            b"BUG: a",
            b"2",
        ),
        // the log ends
        (
            b"rcu: INFO: rcu_preempt self-detected stall on CPU",
            b"rcu: INFO: rcu_preempt self-detected stall on CPU",
            b"-",
        ),
    ] {
        assert!(rt; is_on(text, telling, cpu));
    }
}

// A number before other words, or none before these.
#[test]
fn numbers_that_hide_no_lockup(rt: HostRuntime) {
    for text in [
        b"watchdog: CPU0: Disabling watchdog\n".as_slice(),
        // PowerPC
        b"watchdog: CPU 3 self-detected hard LOCKUP @ f+0x1/0x2\n",
        b"watchdog: CPU0 Watchdog: detected hard LOCKUP on cpu 1\n",
        b"watchdog: CPU0:Watchdog detected hard LOCKUP on cpu 1\n",
        b"watchdog: CPU",
        b"watchdog: CPU0:",
        b"a: CPU0: Watchdog detected hard LOCKUP on cpu 1\n",
    ] {
        assert!(rt; death(text).is_none());
    }
}

// A task that hangs, and the one that holds what it waits for.
const BLOCKER: &[u8] = b"\
<3>[   19.900001] INFO: task a:10 blocked for more than 5 seconds.\n\
<3>[   19.900002]       Not tainted 7.2.13 #1\n\
<3>[   19.900003] \"echo 0 > /proc/sys/kernel/hung_task_timeout_secs\" disables this message.\n\
<6>[   19.900004] task:a               state:D stack:0     pid:10    tgid:10    ppid:1      task_flags:0x400000 flags:0x00080000\n\
<6>[   19.900005] Call Trace:\n\
<6>[   19.900006]  <TASK>\n\
<6>[   19.900007]  __schedule+0x3e8/0xac0\n\
<6>[   19.900008]  schedule+0x27/0xd0\n\
<6>[   19.900009]  schedule_preempt_disabled+0x15/0x20\n\
<6>[   19.900010]  __mutex_lock.constprop.0+0x2f1/0x6a0\n\
<6>[   19.900011]  f+0x1/0x2\n\
<6>[   19.900012]  </TASK>\n\
<3>[   19.900013] INFO: task a:10 is blocked on a mutex likely owned by task b:11.\n\
<6>[   19.900014] task:b               state:S stack:0     pid:11    tgid:11    ppid:1      task_flags:0x400000 flags:0x00080000\n\
<6>[   19.900015] Call Trace:\n\
<6>[   19.900016]  <TASK>\n\
<6>[   19.900017]  __schedule+0x3e8/0xac0\n\
<6>[   19.900018]  schedule+0x27/0xd0\n\
<6>[   19.900019]  g+0x1/0x2\n\
<6>[   19.900020]  </TASK>\n\
<0>[   19.900021] Kernel panic - not syncing: hung_task: blocked tasks\n\
<4>[   19.900022] CPU: 0 UID: 0 PID: 26 Comm: khungtaskd Not tainted 7.2.13 #1 PREEMPT(lazy)\n";

#[test]
fn a_task_and_its_blocker(rt: HostRuntime) -> Result<(), Fail> {
    assert_told(
        &rt,
        BLOCKER,
        [
            b"INFO: task a:10 blocked for more than 5 seconds.",
            b"Kernel panic - not syncing: hung_task: blocked tasks",
            b"-",
            b"a:10",
            b"Not tainted 7.2.13 #1",
            b"f+0x1/0x2",
        ],
    );
    let names = b"__schedule\nschedule\nschedule_preempt_disabled\n__mutex_lock.constprop.0\nf\n";
    assert!(rt; are_names(rt.alloc(), BLOCKER, names)?);
    Ok(())
}

// By hand: the trace of the task names none but those that wait.
#[test]
fn a_blocker_is_not_to_blame(rt: HostRuntime) {
    assert_told(
        &rt,
        b"INFO: task a:10 blocked for more than 5 seconds.\nCall Trace:\n <TASK>\n __schedule+0x1/0x2\n schedule+0x1/0x2\n </TASK>\n\
INFO: task a:10 is blocked on a mutex likely owned by task b:11.\nCall Trace:\n <TASK>\n g+0x1/0x2\n </TASK>\n",
        [
            b"INFO: task a:10 blocked for more than 5 seconds.",
            b"-",
            b"-",
            b"a:10",
            b"-",
            b"-",
        ],
    );
}

// By hand: the trace of the task is missing.
#[test]
fn a_blocker_has_a_trace_of_its_own(rt: HostRuntime) -> Result<(), Fail> {
    const LOST: &[u8] = b"INFO: task a:10 blocked for more than 5 seconds.\n\
INFO: task a:10 is blocked on a mutex likely owned by task b:11.\nCall Trace:\n g+0x1/0x2\n";
    assert_told(
        &rt,
        LOST,
        [
            b"INFO: task a:10 blocked for more than 5 seconds.",
            b"-",
            b"-",
            b"a:10",
            b"-",
            b"-",
        ],
    );
    assert!(rt; are_names(rt.alloc(), LOST, b"")?);
    Ok(())
}

// With hung_task_all_cpu_backtrace=1 all processors print what they run. The trace of the task itself can be missing, as
// its level is lower. By hand.
#[test]
fn a_task_that_hangs_runs_on_no_processor(rt: HostRuntime) -> Result<(), Fail> {
    const OTHERS: &[u8] =
        b"<3>INFO: task a:10 blocked for more than 120 seconds.\n<3>      Not tainted 6.12.0 #1\n\
<4>NMI backtrace for cpu 1\n<4>CPU: 1 UID: 0 PID: 9 Comm: b Not tainted 6.12.0 #1\n<4>RIP: 0010:g+0x1/0x2\n\
<4>Call Trace:\n<4> h+0x1/0x2\n<0>Kernel panic - not syncing: hung_task: blocked tasks\n";
    assert_told(
        &rt,
        OTHERS,
        [
            b"INFO: task a:10 blocked for more than 120 seconds.",
            b"Kernel panic - not syncing: hung_task: blocked tasks",
            b"-",
            b"a:10",
            b"Not tainted 6.12.0 #1",
            b"-",
        ],
    );
    assert!(rt; are_names(rt.alloc(), OTHERS, b"")?);
    Ok(())
}

#[test]
fn a_task_that_waits_for_a_device(rt: HostRuntime) {
    assert_told(
        &rt,
        b"INFO: task kworker/0:1:10 blocked in I/O wait for more than 120 seconds.\nCall Trace:\n io_schedule+0x1/0x2\n f+0x1/0x2\n",
        [
            b"INFO: task kworker/0:1:10 blocked in I/O wait for more than 120 seconds.",
            b"-",
            b"-",
            b"kworker/0:1:10",
            b"-",
            b"f+0x1/0x2",
        ],
    );
}

// What a task waits for is no report: it tells nothing, and ends no other report than that of a task that hangs.
#[test]
fn lines_on_blockers(rt: HostRuntime) {
    for text in [
        b"INFO: task a:10 is blocked on a mutex likely owned by task b:11.\n".as_slice(),
        b"INFO: task a:10 is blocked on a mutex, but the owner is not found.\n",
        b"INFO: task a:10 blocked on a semaphore likely last held by task b:11\n",
        b"INFO: task a:10 is blocked on a semaphore, but the last holder is not found.\n",
        b"INFO: task a:10 <writer> blocked on an rw-semaphore likely owned by task b:11 <reader>\n",
        b"INFO: task a:10 is blocked on an rw-semaphore, but the owner is not found.\n",
        b"INFO: task a:10 blocked",
        b"INFO: task ",
    ] {
        assert!(rt; death(text).is_none());
    }
    assert_told(
        &rt,
        b"BUG: a\nINFO: task b:10 is blocked on a mutex likely owned by task c:11.\nCPU: 0 PID: 9 Comm: d Not tainted 7.2.13 #1\n\
RIP: 0010:f+0x1/0x2\n",
        [
            b"BUG: a",
            b"-",
            b"0",
            b"PID: 9 Comm: d",
            b"Not tainted 7.2.13 #1",
            b"f+0x1/0x2",
        ],
    );
    // a warning that is open at the panic stays open
    assert!(rt;
        is_telling(
            b"WARNING: CPU: 0 PID: 1 at a.c:1 f+0x1/0x2\nINFO: task b:10 is blocked on a mutex likely owned by task c:11.\n\
Kernel panic - not syncing: kernel: panic_on_warn set ...\n",
            b"WARNING: CPU: 0 PID: 1 at a.c:1 f+0x1/0x2"
        )
    );
}

// Warnings without a file, or with one in no directory of the kernel's.
#[test]
fn a_warning_without_a_file(rt: HostRuntime) {
    assert!(rt;
        is_named(
            b"WARNING: at f+0x30/0x3c, CPU#0: b/27\nRIP: 0010:f+0x30/0x3c\n",
            b"WARNING: at f+0x30/0x3c, CPU#0: b/27",
            b"f+0x30/0x3c"
        )
    );
    assert_line(
        &rt,
        b"WARNING: at f+0x30/0x3c [m], CPU#0: b/27\n",
        b"WARNING: at f+0x30/0x3c [m], CPU#0: b/27",
    );
    assert!(rt;
        is_named(
            b"WARNING: CPU#0: b/27\nRIP: 0010:f+0x30/0x3c\n",
            b"WARNING: CPU#0: b/27",
            b"f+0x30/0x3c"
        )
    );
}

// Where such a warning stands, a report ends, and one is open; another sentence that begins so leaves both.
#[test]
fn warnings_by_their_processor(rt: HostRuntime) {
    assert_line(
        &rt,
        b"BUG: a\nWARNING: boom.c:12 at f+0x1/0x2 [m], CPU#0: b/27\nCPU: 0 PID: 9 Comm: d Not tainted 7.2.13 #1\n\
RIP: 0010:f+0x1/0x2\n",
        b"BUG: a",
    );
    assert!(rt;
        is_named(
            b"BUG: a\nWARNING: boom is slow\nRIP: 0010:f+0x1/0x2\n",
            b"BUG: a",
            b"f+0x1/0x2"
        )
    );
    assert!(rt;
        is_telling(
            b"WARNING: boom.c:12 at f+0x1/0x2 [m], CPU#0: b/27\nWARNING: boom is slow\n\
Kernel panic - not syncing: kernel: panic_on_warn set ...\n",
            b"WARNING: boom.c:12 at f+0x1/0x2 [m], CPU#0: b/27"
        )
    );
}

// What else the kernel warns of opens no report.
#[test]
fn lines_that_warn_of_no_death(rt: HostRuntime) {
    for text in [
        b"WARNING: can't access registers at f+0x1/0x2\n".as_slice(),
        b"WARNING: can't access iret registers at f+0x1/0x2\n",
        b"WARNING: stack recursion on stack type 4\n",
        b"WARNING: stack going in the wrong direction? at f+0x1/0x2\n",
        b"WARNING: WARNING: bad lookup idx: idx=1 num=2 ip=f+0x1/0x2\n",
        b"WARNING: Flushing system-wide workqueues will be prohibited in near future.\n",
        b"WARNING: attached\n",
        b"WARNING: at",
        // of a driver
        b"WARNING: boom: the device is gone\n",
        b"WARNING: boom.c:12 at f+0x1/0x2 [m]\n",
        b"WARNING: boom is slow on CPU#3: try another\n",
        b"WARNING: boom is slow, CPU 3\n",
        b"WARNING: boom, CPU",
        b"WARNING: ",
        b"boom: WARNING: boom.c:12 at f+0x1/0x2 [m], CPU#0: b/27\n",
        b"boom, CPU#0: b/27\n",
    ] {
        assert!(rt; death(text).is_none());
    }
}
