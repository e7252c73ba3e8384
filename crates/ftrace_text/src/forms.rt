// The entries of ftrace logs of any machine, in one form.
ghost use Rattle.std.specs.Prelude.{◌≡◌, ◌<◌, ◌≤◌, ◌+◌, ◌*◌, ◌^◌, ℕ, List, length, map, fold, IfOk};
ghost use Rattle.std.specs.Borrow.{Bor};
ghost use Rattle.zone_spec.specs.Ftrace.{merge};
ghost use Rattle.ftrace_zone.specs.EntryBytes.{entry_bytes};
ghost use Rattle.ftrace_spec.specs.Forms.{entry_len as len_of, number_of, as_long, entry_at, long_entries, falls_after};
ghost use Rattle.ftrace_spec.specs.Forms.{oddities as oddities_of, all_oddities as all_of, form_shown as shown_of};
ghost use Rattle.ftrace_spec.specs.Forms.{form_of as form_by, trace_by as trace_in, trace_of, order_of as order_in};

use ftrace_spec::EntryForm;
use ftrace_zone::types::Entries;
use ftrace_zone::{Entry, merge, to_bytes};
use outside::Bytes;
use std::alloc::{AllocError, Global};
use zone_spec::{ByteOrder, Zone};

fn entry_len(form: EntryForm) -> usize
    ensures len { result ≡ len_of form }
    ensures some { 0 < result }
    ensures small { result ≤ 24 }
{
    match form {
        EntryForm::Long => 24,
        EntryForm::Short => 16,
    }
}

/// The number that eight bytes are.
fn number(order: ByteOrder, bytes: &[u8]) -> u64
    requires { length bytes.now ≡ 8 }
    ensures { result ≡ number_of order bytes.now }
{
    let eight = [
        bytes[0], bytes[1], bytes[2], bytes[3], bytes[4], bytes[5], bytes[6], bytes[7],
    ];
    match order {
        ByteOrder::Little => u64::from_le_bytes(eight),
        ByteOrder::Big => u64::from_be_bytes(eight),
    }
}

/// The entry that these bytes are.
#[tactic(auto, unfolding(ftrace_zone::specs::EntryBytes::entry_bytes))]
fn entry_of(order: ByteOrder, form: EntryForm, bytes: &[u8]) -> Entry
    requires { length bytes.now ≡ len_of form }
    ensures { entry_bytes result ≡ as_long order form bytes.now }
{
    match form {
        EntryForm::Long => Entry {
            addr: number(order, &bytes[0..8]),
            parent: number(order, &bytes[8..16]),
            word: number(order, &bytes[16..24]),
        },
        EntryForm::Short => Entry {
            addr: u64::from(order.word(&bytes[0..4])),
            parent: u64::from(order.word(&bytes[4..8])),
            word: number(order, &bytes[8..16]),
        },
    }
}

/// Entry `i` of a log. The log's first bytes, where they make no whole entry, are left out.
fn nth_entry(order: ByteOrder, form: EntryForm, log: &[u8], i: usize) -> Entry
    requires { len_of form * i + len_of form ≤ length log.now }
    ensures { entry_bytes result ≡ as_long order form (entry_at form log.now i) }
{
    let len = entry_len(form);
    let at = log.len() % len + len * i;
    entry_of(order, form, &log[at..at + len])
}

/// The entries of a log.
fn entries(
    alloc: Global,
    order: ByteOrder,
    form: EntryForm,
    log: &[u8],
) -> Result<Entries, AllocError>
    ensures { IfOk result (λ all. map entry_bytes all ≡ long_entries order form log.now) }
{
    let count = log.len() / entry_len(form);
    let mut all = Vec::with_capacity(alloc, count)?;
    for i in 0..count {
        all.push(nth_entry(order, form, log, i))?;
    }
    Ok(Entries::from_vec(all))
}

/// How many entries have a time below that of the one before them.
fn falls(all: &[Entry]) -> u64
    ensures falls { result ≡ falls_after 0 (map entry_bytes all.now) }
    ensures few { result ≤ length all.now }
{
    let mut count = 0;
    let mut last = 0;
    for entry in all {
        if entry.time() < last {
            count += 1;
        }
        last = entry.time();
    }
    count
}

/// What speaks against a form of a log's entries.
fn oddities(alloc: Global, order: ByteOrder, form: EntryForm, log: &[u8]) -> Result<u64, AllocError>
    ensures { IfOk result (λ n. n ≡ oddities_of order form log.now) }
{
    let all = entries(alloc, order, form, log)?;
    let falls = falls(all.as_slice());
    if log.len() % entry_len(form) == 0 {
        Ok(falls)
    } else {
        Ok(1 + falls)
    }
}

fn all_oddities(
    alloc: Global,
    order: ByteOrder,
    form: EntryForm,
    logs: &[&[u8]],
) -> Result<u128, AllocError>
    ensures { IfOk result (λ n. n ≡ all_of order form (map (λ (log : Bor (List ℕ)). log.now) logs.now)) }
{
    let mut sum = 0;
    for log in logs {
        sum += u128::from(oddities(alloc, order, form, log)?);
    }
    Ok(sum)
}

/// The form of the entries that the bytes of logs show.
fn form_shown(alloc: Global, order: ByteOrder, logs: &[&[u8]]) -> Result<EntryForm, AllocError>
    ensures { IfOk result (λ form. form ≡ shown_of order (map (λ (log : Bor (List ℕ)). log.now) logs.now)) }
{
    let short = all_oddities(alloc, order, EntryForm::Short, logs)?;
    let long = all_oddities(alloc, order, EntryForm::Long, logs)?;
    if short < long {
        Ok(EntryForm::Short)
    } else {
        Ok(EntryForm::Long)
    }
}

fn merged(
    alloc: Global,
    order: ByteOrder,
    form: EntryForm,
    all: &Entries,
    log: &[u8],
) -> Result<Entries, AllocError>
    ensures { IfOk result (λ more. map entry_bytes more
        ≡ merge (map entry_bytes all.now) (long_entries order form log.now)) }
{
    let later = entries(alloc, order, form, log)?;
    merge(alloc, all, &later)
}

/// The entries of these logs, merged from the first log on.
fn trace_by(
    alloc: Global,
    order: ByteOrder,
    form: EntryForm,
    logs: &[&[u8]],
) -> Result<Bytes, AllocError>
    ensures { IfOk result (λ bytes. bytes ≡ trace_in order form (map (λ (log : Bor (List ℕ)). log.now) logs.now)) }
{
    let mut all = Entries::from_vec(Vec::new(alloc));
    for log in logs {
        all = merged(alloc, order, form, &all, log)?;
    }
    to_bytes(alloc, &all)
}

fn form_of(
    alloc: Global,
    order: ByteOrder,
    given: Option<EntryForm>,
    logs: &[&[u8]],
) -> Result<EntryForm, AllocError>
    ensures { IfOk result (λ form. form ≡ form_by order given (map (λ (log : Bor (List ℕ)). log.now) logs.now)) }
{
    match given {
        Some(form) => Ok(form),
        None => form_shown(alloc, order, logs),
    }
}

/// The entries of the logs of a machine's ftrace zones, merged by their times (`fs/pstore/ftrace.c`,
/// `pstore_ftrace_combine_log`), each as a little-endian machine of 64 bits writes it. Without a form the
/// logs' bytes show it. Takes time linear in the logs.
#[tactic(auto, unfolding(ftrace_spec::specs::Forms::trace_of))]
pub fn trace(
    alloc: Global,
    order: ByteOrder,
    given: Option<EntryForm>,
    logs: &[&[u8]],
) -> Result<Bytes, AllocError>
    ensures { IfOk result (λ bytes. bytes ≡ trace_of order given (map (λ (log : Bor (List ℕ)). log.now) logs.now)) }
{
    let form = form_of(alloc, order, given, logs)?;
    trace_by(alloc, order, form, logs)
}

/// The order of bytes of a layout.
pub fn order_of(zones: &[Zone]) -> ByteOrder
    ensures { result ≡ order_in zones.now }
{
    match zones.first() {
        Some(zone) => zone.byte_order,
        None => ByteOrder::Little,
    }
}
