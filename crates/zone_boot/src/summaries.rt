// The reading of a zone without its log.
ghost use Rattle.std.specs.Prelude.{◌≡◌, ◌*◌, ◌≤◌, ◌<◌, length, sum_by};
ghost use Rattle.zone_spec.specs.Zones.{IsValidZone};
ghost use Rattle.zone_spec.specs.Parts.{Block};
ghost use Rattle.zone_spec.specs.PartReadings.{PartReading, part_reading};
ghost use Rattle.zone_spec.specs.Reading.{zone_reading, state_of as state_for, blocks_below};
ghost use Rattle.prz_ecc.specs.Outcomes.{CountsAre};
ghost use Rattle.rs_encode.specs.Lanes.{IsLent};
ghost use Rattle.zone_boot.specs.Summaries.{summary_of};

use arrayvec::ArrayVec;
use prz_ecc::{Decoded, Fix, read_block, read_header};
use zone_spec::{State, Words, Zone};

/// What a boot reads of a zone, but for the log: its state, the words of its header, how many bytes its log has, and
/// how many bytes of header and blocks were corrected (of their parity too) and how many of these parts could not be.
#[derive(Clone, Copy, Debug, PartialEq, Eq)]
pub struct Summary {
    pub state: State,
    pub words: Words,
    pub len: u32,
    pub corrected: u32,
    pub bad: u32,
}

/// Corrected bytes, and parts that could not be read.
#[derive(Clone, Copy)]
pub struct Counts {
    pub corrected: u32,
    pub bad: u32,
}

/// What a part with this outcome adds.
pub fn counts_of(outcome: Decoded) -> Counts
    ensures corrected { (reading : PartReading) → CountsAre outcome reading → result.corrected ≡ reading.corrected }
    ensures bad { (reading : PartReading) → CountsAre outcome reading → result.bad ≡ reading.bad }
    ensures few { result.corrected < 256 }
    ensures one { result.bad ≤ 1 }
{
    match outcome {
        Decoded::Clean => Counts {
            corrected: 0,
            bad: 0,
        },
        Decoded::Fixed(places) => Counts {
            corrected: u32::from(places),
            bad: 0,
        },
        Decoded::Bad => Counts {
            corrected: 0,
            bad: 1,
        },
    }
}

/// The state that a header's words make.
pub fn state_of(zone: &Zone, words: Words) -> State
    ensures { result ≡ state_for zone.now words }
{
    if words.sig != zone.sig {
        State::Unsigned
    } else if words.size == 0 && words.start == 0 {
        State::Empty
    } else if words.size > zone.cap || words.start > words.size {
        State::Invalid
    } else {
        State::Found
    }
}

/// What the blocks that begin below `size` count. Each is decoded once.
fn count_blocks(table: &[u128], image: &[u8], zone: &Zone, size: u32) -> Counts
    requires table { IsLent zone.now.parity table.now }
    requires valid { IsValidZone zone.now }
    requires size { length image.now ≡ zone.now.size }
    requires within { size ≤ zone.now.cap }
    ensures corrected { result.corrected ≡ sum_by (λ b. (part_reading zone.now image.now (Block b)).corrected)
        (blocks_below zone.now size) }
    ensures bad { result.bad ≡ sum_by (λ b. (part_reading zone.now image.now (Block b)).bad)
        (blocks_below zone.now size) }
    ensures few { result.corrected ≤ 255 * size }
    ensures some { result.bad ≤ size }
{
    let mut counts = Counts {
        corrected: 0,
        bad: 0,
    };
    let count = size.div_ceil(zone.block);
    for b in 0..count {
        let mut block: ArrayVec<u8, 255> = ArrayVec::new();
        let mut fixes: ArrayVec<Fix, 63> = ArrayVec::new();
        let outcome = read_block(table, image, zone, b, &mut block, &mut fixes);
        let more = counts_of(outcome);
        counts.corrected += more.corrected;
        counts.bad += more.bad;
    }
    counts
}

/// Reads a zone as a boot does, and stores nothing. Each block that a boot reads is decoded once.
pub fn read_summary(table: &[u128], image: &[u8], zone: &Zone) -> Summary
    requires table { IsLent zone.now.parity table.now }
    requires valid { IsValidZone zone.now }
    requires size { length image.now ≡ zone.now.size }
    ensures { result ≡ summary_of (zone_reading zone.now image.now) }
{
    let mut fixes: ArrayVec<Fix, 63> = ArrayVec::new();
    let header = read_header(table, image, zone, &mut fixes);
    let counts = counts_of(header.outcome);
    let words = header.words;
    match state_of(zone, words) {
        State::Found => {
            let more = count_blocks(table, image, zone, words.size);
            Summary {
                state: State::Found,
                words,
                len: words.size,
                corrected: counts.corrected + more.corrected,
                bad: counts.bad + more.bad,
            }
        }
        state => Summary {
            state,
            words,
            len: 0,
            corrected: counts.corrected,
            bad: counts.bad,
        },
    }
}
