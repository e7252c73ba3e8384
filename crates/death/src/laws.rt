// Worked logs, each a theorem.
ghost use Rattle.std.specs.Prelude.{◌≡◌, [], ◌∷◌, ◌++◌, codes, Some, None};
ghost use Rattle.std.specs.Option.{option_map};
ghost use Rattle.death_spec.specs.Reports.{death_of, trace_of};
ghost use Rattle.death_spec.specs.Signatures.{signature_of};

/// A panic after an oops is told by its own line, and the oops's place in the code is not its function.
pub fn a_panic_is_not_named_by_an_oops()
    ensures telling { option_map (λ d. d.telling.start)
        (death_of (codes "BUG: a" ++ 10 ∷ codes "RIP: 0010:b+0x1" ++ 10 ∷ codes "Kernel panic - not syncing"))
        ≡ Some 23 }
    ensures function { option_map (λ d. d.function)
        (death_of (codes "BUG: a" ++ 10 ∷ codes "RIP: 0010:b+0x1" ++ 10 ∷ codes "Kernel panic - not syncing"))
        ≡ Some None }
{}

/// A fault is told, and not the head of its oops.
pub fn a_fault_is_told()
    ensures telling { option_map (λ d. d.telling.start)
        (death_of (codes "BUG: a" ++ 10 ∷ codes "Oops: b" ++ 10 ∷ codes "RIP: 0010:c+0x1")) ≡ Some 0 }
    ensures function { option_map (λ d. d.function)
        (death_of (codes "BUG: a" ++ 10 ∷ codes "Oops: b" ++ 10 ∷ codes "RIP: 0010:c+0x1"))
        ≡ Some (Some (record { start = 25; end = 30 })) }
{}

/// The warning is told that is open at a panic because of a warning, and not the panic.
pub fn a_warning_is_the_cause()
    ensures { option_map (λ d. d.telling.start)
        (death_of (codes "WARNING: CPU:" ++ 10 ∷ codes "Kernel panic - not syncing: panic_on_warn set"))
        ≡ Some 0 }
{}

/// A warning whose report has ended is no cause.
pub fn an_ended_warning_is_no_cause()
    ensures { option_map (λ d. d.telling.start)
        (death_of (codes "WARNING: CPU:" ++ 10 ∷ codes "---[ end " ++ 10
        ∷ codes "Kernel panic - not syncing: panic_on_warn set")) ≡ Some 24 }
{}

/// A fault whose report has ended is not told for a later oops.
pub fn a_later_oops_is_told()
    ensures { option_map (λ d. d.telling.start)
        (death_of (codes "BUG: a" ++ 10 ∷ codes "---[ end " ++ 10 ∷ codes "Oops - b")) ≡ Some 17 }
{}

/// A program's line tells nothing.
pub fn a_program_tells_nothing()
    ensures { death_of (codes "<12>BUG: a") ≡ None }
{}

/// A lockup's processor is the one that its line names, and not the one that saw it and wrote the report.
pub fn a_lockup_names_its_processor()
    ensures { option_map (λ d. d.cpu)
        (death_of (codes "watchdog: CPU0: Watchdog detected hard LOCKUP on cpu 13" ++ 10 ∷ codes "CPU: 0 PID: 9"))
        ≡ Some (Some (record { start = 53; end = 55 })) }
{}

/// In these logs another processor, or another task, writes below the telling line, and nothing of it is named.
pub fn reports_of_others_are_left_out()
    ensures processor { option_map (λ d. d.task)
        (death_of (codes "Watchdog detected hard LOCKUP on cpu 1" ++ 10 ∷ codes "CPU: 0 PID: 9")) ≡ Some None }
    ensures before { option_map (λ d. d.function)
        (death_of (codes "Watchdog detected hard LOCKUP on cpu 1" ++ 10 ∷ codes "RIP: 0010:b+0x1" ++ 10
        ∷ codes "CPU: 1 PID: 9")) ≡ Some None }
    ensures processors { option_map (λ d. d.function)
        (death_of (codes "INFO: task a:1 blocked for more than 5" ++ 10 ∷ codes "CPU: 0 PID: 9" ++ 10
        ∷ codes " b+0x1")) ≡ Some None }
    ensures task { option_map (λ d. d.function)
        (death_of (codes "INFO: task a:1 blocked for more than 5" ++ 10
        ∷ codes "INFO: task a:1 is blocked on a mutex" ++ 10 ∷ codes " b+0x1")) ≡ Some None }
{}

/// `INFO: task .. is blocked on a mutex` tells nothing, and is not taken for a later task that hangs.
pub fn a_blocker_is_no_second_task()
    ensures alone { death_of (codes "INFO: task a:1 is blocked on a mutex") ≡ None }
    ensures telling { option_map (λ d. d.telling.start)
        (death_of (codes "INFO: task a:1 blocked for more than 5" ++ 10
        ∷ codes "INFO: task a:1 is blocked on a mutex" ++ 10
        ∷ codes "Kernel panic - not syncing: hung_task: blocked tasks")) ≡ Some 0 }
{}

/// A task that waits for a device is named too.
pub fn a_task_in_io_wait_is_named()
    ensures { option_map (λ d. d.task) (death_of (codes "INFO: task a:1 blocked in I/O wait for more than 5"))
        ≡ Some (Some (record { start = 11; end = 14 })) }
{}

/// An entry that the kernel is unsure of is none of the trace.
pub fn unsure_entries_are_left_out()
    ensures { trace_of (codes "BUG: a" ++ 10 ∷ codes "Call Trace:" ++ 10 ∷ codes "? b+0x1" ++ 10 ∷ codes " c+0x1")
        ≡ record { start = 28; end = 29 } ∷ [] }
{}

/// One fault has one signature, whatever its address, its task and its place in the function.
pub fn one_fault_has_one_signature()
    ensures one { option_map (signature_of (codes "BUG: kernel NULL pointer dereference, address: 18" ++ 10
        ∷ codes "RIP: 0010:b.cold+0x5 [m]"))
        (death_of (codes "BUG: kernel NULL pointer dereference, address: 18" ++ 10
        ∷ codes "RIP: 0010:b.cold+0x5 [m]"))
        ≡ Some (codes "BUG: kernel NULL pointer dereference in b") }
    ensures other { option_map (signature_of (codes "<1>[ 2.2] Unable to handle kernel NULL pointer dereference" ++ 10
        ∷ codes "<4>[ 2.3] pc : b+0x28"))
        (death_of (codes "<1>[ 2.2] Unable to handle kernel NULL pointer dereference" ++ 10
        ∷ codes "<4>[ 2.3] pc : b+0x28"))
        ≡ Some (codes "BUG: kernel NULL pointer dereference in b") }
{}

/// Numbers are left out of a panic's signature, and digits within a word stay.
pub fn numbers_are_left_out()
    ensures { option_map (signature_of (codes "Kernel panic - not syncing: ext4: 0x1c of 7,9"))
        (death_of (codes "Kernel panic - not syncing: ext4: 0x1c of 7,9"))
        ≡ Some (codes "kernel panic: ext4: .. of ..") }
{}

/// What a journal wrote before the kernel's words is passed over, and so are the date of a serial capture and a colour.
pub fn fronts_are_passed_over()
    ensures journal { option_map (λ d. d.telling.text) (death_of (codes "Nov 29 22:45:01 host kernel: BUG: a"))
        ≡ Some 29 }
    ensures capture { option_map (λ d. d.telling.level)
        (death_of (codes "[2026-11-29 22:45:01] " ++ 27 ∷ codes "[1;31m<1>[ 1.2] BUG: a")) ≡ Some 29 }
{}
