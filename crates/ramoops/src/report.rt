// What a boot tells of each zone.
ghost use Rattle.std.specs.Prelude.{◌≡◌, ◌≤◌, ◌^◌, ◌<◌, ◌==◌, ◌&&◌, nat_eq, position, length, ℕ, Some, IfSome};
ghost use Rattle.std.specs.List.{common_prefix_len};
ghost use Rattle.std.specs.Option.{option_map, option_copied};
ghost use Rattle.circular_buffer.specs.Buffer.{Buffer};
ghost use Rattle.zone_spec.specs.declared.Pair.{Pair as APair};
ghost use Rattle.zone_spec.specs.Verdicts.{verdict_of};
ghost use Rattle.zone_spec.specs.Pairs.{header_seen as header_seen_in};
ghost use Rattle.ramoops.specs.OffSeen.{known_or};
ghost use Rattle.ramoops.specs.Reports.{cut_seen, report_seen, report_cut, report_zone};

use crate::Told;
use crate::known::{HeldCut, KnownZone};
use arrayvec::ArrayVec;
use prz_read::Reading;
use std::marker::Model;
use zone_spec::{CallKind, HeaderSeen, Pair, Verdict, Words, Zone, ZoneName};

/// A call, or a boot's own erasure, that was cut: how many of its stores were made, which of its pairs the header
/// reads, and the first and the last of each run of blocks that the whole call touches, rising.
#[derive(Drop)]
pub struct Cut {
    pub kind: CallKind,
    pub made: u64,
    pub total: u64,
    pub header: HeaderSeen,
    pub runs: ArrayVec<(u32, u32), 2>,
}

/// What a boot tells of a zone: its log against what it was told, and its cut, if it had one.
#[derive(Drop)]
pub struct ZoneReport {
    pub name: ZoneName,
    pub verdict: Verdict,
    pub cut: Option<Cut>,
}

/// The reports of a layout's zones, in the zones' order.
#[derive(Drop)]
pub struct Report {
    items: Vec<ZoneReport>,
}

impl Model for Report {
    ghost use Rattle.std.specs.Prelude.{List};
    ghost use Rattle.ramoops.specs.declared.report.ZoneReport.{ZoneReport};

    ghost Value = { List ZoneReport };

    ghost view = { λ r. r.items.items };
}

impl Report {
    /// Takes no memory.
    pub fn from_vec(v: Vec<ZoneReport>) -> Report
        ensures { result ≡ v.items }
    {
        Report { items: v }
    }

    pub fn as_slice(&self) -> &[ZoneReport]
        ensures { result.now ≡ self.now }
    {
        &self.items
    }
}

// How many bytes two lists have in common from the front on.
fn common_prefix(a: &[u8], b: &[u8]) -> usize
    ensures { result ≡ common_prefix_len nat_eq a.now b.now }
{
    let mut n = 0;
    while n < a.len() && n < b.len() && a[n] == b[n] {
        n += 1;
    }
    n
}

fn common_with(told: &Told, log: &[u8]) -> usize
    requires { length log.now < 2 ^ 32 }
    ensures { result ≡ common_prefix_len nat_eq told.now.items log.now }
{
    let (front, back) = told.ring().as_slices();
    let n = common_prefix(front, log);
    if n < front.len() {
        n
    } else {
        n + common_prefix(back, &log[n..])
    }
}

fn verdict_on(told: &Told, log: &[u8]) -> Verdict
    requires { length log.now < 2 ^ 32 }
    ensures { result ≡ verdict_of (Some told.now.items) log.now }
{
    let (told_len, seen) = (told.len(), log.len() as u32);
    let first = common_with(told, log) as u32;
    if first == told_len && first == seen {
        Verdict::AsTold
    } else {
        Verdict::Differs {
            told: told_len,
            seen,
            first,
        }
    }
}

fn verdict(told: &Option<Told>, log: &[u8]) -> Verdict
    requires { length log.now < 2 ^ 32 }
    ensures { result ≡ verdict_of (option_map (λ (t : Buffer ℕ). t.items) told.now) log.now }
{
    match told {
        Some(told) => verdict_on(told, log),
        None => Verdict::NothingTold,
    }
}

// The least number of a pair that the words are.
fn pair_place(words: Words, pairs: &[Pair]) -> Option<usize>
    ensures place { result ≡ position (λ (p : APair). (words.start == p.start) && (words.size == p.size)) pairs.now }
    ensures within { IfSome result (λ j. j < length pairs.now) }
{
    pairs.iter().position(|pair| words.start == pair.start && words.size == pair.size)
}

fn header_seen(zone: &Zone, words: Words, pairs: &[Pair]) -> HeaderSeen
    requires { length pairs.now ≤ 8 }
    ensures { result ≡ header_seen_in zone.now words pairs.now }
{
    if words.sig != zone.sig {
        return HeaderSeen::Foreign;
    }
    match pair_place(words, pairs) {
        Some(j) => HeaderSeen::Pair(j as u8),
        None => HeaderSeen::Foreign,
    }
}

fn copy_runs(runs: &ArrayVec<(u32, u32), 2>) -> ArrayVec<(u32, u32), 2>
    ensures { result.items ≡ runs.now.items }
{
    let mut copy = ArrayVec::new();
    let _room = copy.try_extend_from_slice(runs.as_slice());
    copy
}

fn cut_of(zone: &Zone, reading: &Reading, cut: &HeldCut) -> Cut
    ensures { cut_seen result ≡ report_cut zone.now reading.now cut.now }
{
    let words = reading.words;
    Cut {
        kind: cut.kind,
        made: cut.made,
        total: cut.total,
        header: header_seen(zone, words, cut.pairs.as_slice()),
        runs: copy_runs(&cut.runs),
    }
}

fn report_known(zone: &Zone, known: &KnownZone, reading: &Reading) -> ZoneReport
    requires { length reading.now.log < 2 ^ 32 }
    ensures { report_seen result ≡ report_zone zone.now known.now reading.now }
{
    ZoneReport {
        name: zone.name,
        verdict: verdict(&known.told, reading.log.as_slice()),
        cut: match &known.cut {
            Some(cut) => Some(cut_of(zone, reading, cut)),
            None => None,
        },
    }
}

/// What a boot tells of a zone, by its reading and by what was known of it, if anything was.
pub(crate) fn report_of(zone: &Zone, known: Option<&KnownZone>, reading: &Reading) -> ZoneReport
    requires { length reading.now.log < 2 ^ 32 }
    ensures { report_seen result ≡ report_zone zone.now (known_or (option_copied known.entry)) reading.now }
{
    match known {
        Some(known) => report_known(zone, known, reading),
        None => ZoneReport {
            name: zone.name,
            verdict: Verdict::NothingTold,
            cut: None,
        },
    }
}
