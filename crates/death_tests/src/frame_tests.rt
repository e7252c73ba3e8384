// The functions by which a kernel dies and waits, each in a trace of its own. The names of the first two lists are from
// the kernel's sources.
use death::*;
use std::alloc::{AllocError, Global};
use std::test::Fail;

const DYING: &[&[u8]] = &[
    b"dump_backtrace_entry",
    b"unwind_backtrace",
    b"show_stack_log_lvl",
    b"show_regs_if_on_stack",
    b"dump_stack_lvl",
    b"__dump_stack",
    b"panic",
    b"vpanic",
    b"nmi_panic_self_stop",
    b"panic_bad_stack",
    b"check_panic_on_warn",
    b"__warn_printk",
    b"warn_slowpath_fmt",
    b"report_bug",
    b"__report_bug",
    b"handle_bug",
    b"bug_handler",
    b"brk_handler",
    b"call_break_hook",
    b"call_el1_break_hook",
    b"do_debug_exception",
    b"do_el1_brk64",
    b"exc_page_fault",
    b"asm_exc_invalid_op",
    b"die",
    b"die_addr",
    b"__die_body",
    b"oops_end",
    b"make_task_dead",
    b"do_exit",
    b"do_group_exit",
    b"page_fault_oops",
    b"bad_area_nosemaphore",
    b"__bad_area_nosemaphore",
    b"no_context",
    b"do_user_addr_fault",
    b"fixup_exception",
    b"__do_kernel_fault",
    b"do_mem_abort",
    b"do_translation_fault",
    b"do_page_fault",
    b"do_DataAbort",
    b"__dabt_svc",
    b"do_PrefetchAbort",
    b"__pabt_svc",
    b"el1h_64_sync_handler",
    b"el1t_64_sync_handler",
    b"el1_abort",
    b"el1_dbg",
    b"el1_brk64",
    b"handle_bad_stack",
    b"__bad_stack",
    b"arm64_serror_panic",
    b"do_serror",
    b"watchdog_timer_fn",
    b"__hrtimer_run_queues",
    b"hrtimer_interrupt",
    b"tick_nohz_handler",
    b"tick_sched_timer",
    b"rcu_sched_clock_irq",
    b"rcu_check_gp_kthread_starvation",
    b"panic_on_rcu_stall",
    b"print_cpu_stall",
    b"print_other_cpu_stall",
    b"rcu_dump_cpu_stacks",
    b"kasan_report_invalid_free",
    b"print_report",
    b"__stack_chk_fail",
    b"__ubsan_handle_shift_out_of_bounds",
    b"ubsan_epilogue",
    b"__fortify_panic",
    b"fortify_panic",
    b"usercopy_abort",
    b"__check_heap_object",
    b"__check_object_size",
    b"refcount_warn_saturate",
    b"__list_add_valid_or_report",
    b"__list_del_entry_valid_or_report",
];

const WAITING: &[&[u8]] = &[
    b"__switch_to_asm",
    b"context_switch",
    b"__schedule",
    b"schedule_timeout",
    b"io_schedule_timeout",
    b"wait_for_completion",
    b"__wait_for_common",
    b"mutex_lock_killable",
    b"__mutex_lock_slowpath",
    b"down_write",
    b"__down_common",
    b"rwsem_down_write_slowpath",
];

// These are none of them: a row without a star is the whole name.
const BLAMED: &[&[u8]] = &[
    b"panic_write",
    b"do_exits",
    b"died",
    b"a_panic",
    b"dump",
    b"sched",
];

const PANIC: &[u8] = b"Kernel panic - not syncing: a";

const HUNG: &[u8] = b"INFO: task a:10 blocked for more than 5 seconds.";

fn log_of(alloc: Global, head: &[u8], frame: &[u8]) -> Result<Vec<u8>, AllocError> {
    let mut text = Vec::new(alloc);
    text.extend_from_slice(head)?;
    text.extend_from_slice(b"\nCall Trace:\n ")?;
    text.extend_from_slice(frame)?;
    text.extend_from_slice(b"+0x1/0x2\n caller+0x1/0x2\n")?;
    Ok(text)
}

fn names(text: &[u8], wanted: &[u8]) -> bool {
    match function_of(text) {
        Some(name) => name == wanted,
        None => false,
    }
}

// The function without its place, of which the log has eight bytes more.
fn function_of(text: &[u8]) -> Option<&[u8]> {
    let span = death(text)?.function?;
    text.get(span.start..span.end.saturating_sub(8))
}

fn is_passed(alloc: Global, head: &[u8], frame: &[u8]) -> Result<bool, AllocError> {
    let text = log_of(alloc, head, frame)?;
    Ok(names(text.as_slice(), b"caller"))
}

fn is_blamed(alloc: Global, head: &[u8], frame: &[u8]) -> Result<bool, AllocError> {
    let text = log_of(alloc, head, frame)?;
    Ok(names(text.as_slice(), frame))
}

#[test]
fn frames_of_a_death(rt: HostRuntime) -> Result<(), Fail> {
    for frame in DYING.iter().copied() {
        assert!(rt; is_passed(rt.alloc(), PANIC, frame)?);
        assert!(rt; is_passed(rt.alloc(), HUNG, frame)?);
    }
    Ok(())
}

// Only a task that hangs is about what comes below them.
#[test]
fn frames_of_a_wait(rt: HostRuntime) -> Result<(), Fail> {
    for frame in WAITING.iter().copied() {
        assert!(rt; is_passed(rt.alloc(), HUNG, frame)?);
        assert!(rt; is_blamed(rt.alloc(), PANIC, frame)?);
    }
    Ok(())
}

#[test]
fn frames_to_blame(rt: HostRuntime) -> Result<(), Fail> {
    for frame in BLAMED.iter().copied() {
        assert!(rt; is_blamed(rt.alloc(), PANIC, frame)?);
        assert!(rt; is_blamed(rt.alloc(), HUNG, frame)?);
    }
    Ok(())
}
