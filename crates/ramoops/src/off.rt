// The machine while it is off.
ghost use Rattle.std.specs.Prelude.{◌≡◌, ◌≤◌, ◌<◌, ◌^◌, ◌++◌, ℕ, List, [], length, map, IfOk, IfErr, OnOk, OnErr, IsOk};
ghost use Rattle.zone_spec.specs.declared.Zone.{Zone as AZone};
ghost use Rattle.zone_spec.specs.Layout.{rounded};
ghost use Rattle.ramoops_layout.specs.Laid.{params_of, zones_of};
ghost use Rattle.machine_spec.specs.States.{OffState};
ghost use Rattle.machine_spec.specs.Off.{fresh as fresh_state, flipped};
ghost use Rattle.machine_spec.specs.Boot.{booted};
ghost use Rattle.machine_spec.specs.Erasures.{saved_logs};
ghost use Rattle.ramoops.specs.OffSeen.{OffSeen, StandsOff};
ghost use Rattle.ramoops.specs.Booting.{IsOpen, SpansFit, PreparesOpen, AreLogs, seen_off, seen_booted};
ghost use Rattle.std.specs.List.{concat};
ghost use Rattle.prz_read.specs.Saving.{saved};
ghost use Rattle.prz_region.specs.CutRegion.{cut_at};
ghost use Rattle.ramoops.specs.Made.{boot_writes};
ghost use Rattle.ramoops.specs.Running.{IsRunning};
ghost use Rattle.ramoops.specs.Resting.{IsResting};
ghost use Rattle.ramoops.specs.Reports.{report_seen};
ghost use Rattle.ramoops.specs.Booted.{Booted, BootedInPart};
ghost use Rattle.std.specs.Vec.{vec_capacity};

use crate::booting::{Passed, Prepared, prepare, read_logs, settle_all, settle_part};
use crate::coders::Coders;
use crate::known::{KnownZone, pass_known};
use crate::live::{count_dump_flights, first_dump};
use crate::zones::HeldZone;
use crate::{Live, Report};
use outside::Bytes;
use prz_read::Logs;
use prz_region::{Region, Spans};
use ramoops_layout::types::Layout;
use std::alloc::{AllocError, Global};
use std::marker::Model;
use zone_spec::Refusal;

/// A store that is off: its image can be damaged, and booted.
#[derive(Drop)]
pub struct Off {
    pub(crate) alloc: Global,
    pub(crate) layout: Layout,
    pub(crate) image: Bytes,
    // May end before the zones do: nothing is known of the zones after it.
    pub(crate) zones: Vec<KnownZone>,
}

impl Model for Off {
    ghost use Rattle.std.specs.Prelude.{◌≡◌, ◌≤◌, length};
    ghost use Rattle.zone_spec.specs.Layout.{rounded};
    ghost use Rattle.ramoops_layout.specs.Laid.{params_of, zones_of};
    ghost use Rattle.ramoops.specs.OffSeen.{OffSeen, known_all};
    ghost use Rattle.ramoops.specs.Resting.{IsResting};

    ghost Value = { OffSeen };

    ghost view = { λ o. record {
      layout = zones_of o.layout;
      mem = (params_of o.layout).mem;
      image = o.image;
      zones = known_all (length (zones_of o.layout)) o.zones.items;
    } };

    ghost invariant = { λ o. (length o.image ≡ (params_of o.layout).mem)
        × (length o.zones.items ≤ length (zones_of o.layout))
        × IsResting (record {
          layout = zones_of o.layout;
          mem = (params_of o.layout).mem;
          image = o.image;
          zones = known_all (length (zones_of o.layout)) o.zones.items;
        }) };
}

/// A machine that is off, whose image is cut into the zones' spans.
#[derive(Drop)]
pub struct OpenOff {
    pub(crate) alloc: Global,
    pub(crate) layout: Layout,
    pub(crate) spans: Spans,
    pub(crate) zones: Vec<KnownZone>,
}

impl OpenOff {
    // The image whole again.
    fn close(self) -> Off
        requires size { length (concat self.spans.spans ++ self.spans.rest) ≡ (params_of self.layout).mem }
        requires known { length self.zones.items ≤ length (zones_of self.layout) }
        requires resting { IsResting (seen_off self) }
        ensures { result ≡ seen_off self }
    {
        let OpenOff {
            alloc,
            layout,
            spans,
            zones,
        } = self;
        Off {
            alloc,
            layout,
            image: spans.join().into_bytes(),
            zones,
        }
    }

    // The logs of all zones.
    fn logs(&self) -> Result<Logs, AllocError>
        requires { SpansFit (zones_of self.now.layout) self.now.spans.spans }
        ensures { IfOk result (λ logs. AreLogs (zones_of self.now.layout) self.now.spans.spans logs) }
    {
        read_logs(self.alloc, &self.layout, &self.spans)
    }

    // All that a boot reads and takes before its first store, with room to list all zones.
    fn prepare(&mut self) -> Result<Prepared, AllocError>
        requires spans { SpansFit (zones_of self.old.layout) self.old.spans.spans }
        requires known { length self.old.zones.items ≤ length (zones_of self.old.layout) }
        ensures same { (v : OffSeen) → IsOpen v self.old → IsOpen v self.new }
        ensures prepared { IfOk result (PreparesOpen self.new) }
        ensures room { OnOk result (length (zones_of self.new.layout) ≤ vec_capacity self.new.zones) }
    {
        let count = self.layout.zones().len();
        self.zones.reserve_exact(count - self.zones.len())?;
        prepare(self.alloc, &self.layout, &self.spans, &self.zones)
    }

    // The same for a boot that is cut, with room for how it passes the zones.
    fn prepare_part(&mut self) -> Result<(Prepared, Vec<Passed>), AllocError>
        requires spans { SpansFit (zones_of self.old.layout) self.old.spans.spans }
        requires known { length self.old.zones.items ≤ length (zones_of self.old.layout) }
        ensures same { (v : OffSeen) → IsOpen v self.old → IsOpen v self.new }
        ensures prepared { IfOk result (λ r. PreparesOpen self.new r.0) }
        ensures room { OnOk result (length (zones_of self.new.layout) ≤ vec_capacity self.new.zones) }
        ensures none { IfOk result (λ r. r.1.items ≡ []) }
        ensures passed_room { IfOk result (λ r. length (zones_of self.new.layout) ≤ vec_capacity r.1) }
    {
        let prepared = self.prepare()?;
        let passed = Vec::with_capacity(self.alloc, self.layout.zones().len())?;
        Ok((prepared, passed))
    }

    // The machine after a boot that has made all its stores. The next stop lists the zones in the room of what was
    // known of them.
    fn live(self, zones: Vec<HeldZone>, coders: Coders) -> Live
        requires running { IsRunning (seen_booted self zones.items) }
        requires room { length (zones_of self.layout) ≤ vec_capacity self.zones }
        requires few { length (zones_of self.layout) < 2 ^ 32 }
        ensures { result ≡ seen_booted self zones.items }
    {
        let cursor = first_dump(self.layout.zones());
        let flying_dumps = count_dump_flights(self.layout.zones(), &zones);
        let OpenOff {
            alloc,
            layout,
            spans,
            zones: known,
        } = self;
        Live {
            alloc,
            layout,
            spans,
            zones,
            cursor,
            flying_dumps,
            coders,
            stopped: emptied(known),
        }
    }
}

// The room of a list.
fn emptied(mut known: Vec<KnownZone>) -> Vec<KnownZone>
    ensures none { result.items ≡ [] }
    ensures room { vec_capacity result ≡ vec_capacity known }
{
    known.clear();
    known
}

impl Off {
    /// An image of the layout's `mem` bytes, of which nothing is known. Takes no memory.
    pub fn fresh(alloc: Global, layout: Layout, image: Bytes) -> Result<Off, AllocError>
        requires { length image ≡ (params_of layout).mem }
        ensures stands { IfOk result (λ off. StandsOff (zones_of layout) (params_of layout).mem off
            (fresh_state (zones_of layout) image)) }
        ensures made { IsOk result }
    {
        let _len = image.len();
        let _zones = layout.zones();
        Ok(Off {
            alloc,
            layout,
            image,
            zones: Vec::new(alloc),
        })
    }

    pub fn image(&self) -> &[u8]
        ensures { result.now ≡ self.now.image }
    {
        self.image.as_slice()
    }

    pub fn into_image(self) -> Bytes
        ensures { result ≡ self.image }
    {
        self.image
    }

    /// Exclusive-ors the byte at `at` with a mask. Takes no memory.
    pub fn flip(&mut self, at: u32, mask: u8) -> Result<(), Refusal>
        ensures flipped { OnOk result ((layout : List AZone) (mem : ℕ) (s : OffState)
            → StandsOff layout mem self.old s → StandsOff layout mem self.new (flipped s at mask)) }
        ensures within { OnOk result (at < self.old.mem) }
        ensures refused { IfErr result (λ why. (why ≡ Refusal.OutOfImage) × (self.old.mem ≤ at)) }
        ensures unchanged { OnErr result (self.new ≡ self.old) }
    {
        let bytes = self.image.as_slice();
        if at as usize >= bytes.len() {
            return Err(Refusal::OutOfImage);
        }
        let flipped = bytes[at as usize] ^ mask;
        self.image.set(at, flipped);
        Ok(())
    }

    // Cuts the image. On a refusal the machine is as it was.
    fn open(self) -> Result<OpenOff, (Off, AllocError)>
        ensures open { IfOk result (λ o. IsOpen self o) }
        ensures sound { IsResting self }
        ensures refused { IfErr result (λ e. e.0 ≡ self) }
    {
        let _len = self.image.len();
        let _zones = self.layout.zones();
        let Off {
            alloc,
            layout,
            image,
            zones,
        } = self;
        match Region::from_bytes(image).cut(&layout) {
            Ok(spans) => Ok(OpenOff {
                alloc,
                layout,
                spans,
                zones,
            }),
            Err((region, refused)) => Err((
                Off {
                    alloc,
                    layout,
                    image: region.into_bytes(),
                    zones,
                },
                refused,
            )),
        }
    }

    /// The logs that a boot would save. Each zone is read, and nothing is stored: the machine comes back as it was.
    /// The logs, the encoders and the list of spans are the only memory taken.
    pub fn logs(self) -> Result<(Off, Logs), (Off, AllocError)>
        ensures logs { IfOk result (λ r. (layout : List AZone) (mem : ℕ) (s : OffState)
            → StandsOff layout mem self s → saved r.1 ≡ saved_logs layout (booted layout s)) }
        ensures unchanged { IfOk result (λ r. r.0 ≡ self) }
        ensures refused { IfErr result (λ e. e.0 ≡ self) }
    {
        let open = self.open()?;
        match open.logs() {
            Ok(logs) => Ok((open.close(), logs)),
            Err(refused) => Err((open.close(), refused)),
        }
    }

    /// Boots: each zone is read, its log saved and told against its told list, and its boot stores are made. All memory
    /// is taken before the first store; on a refusal the machine is as it was.
    pub fn boot(self) -> Result<(Live, Logs, Report), (Off, AllocError)>
        ensures booted { IfOk result (λ r. (layout : List AZone) (mem : ℕ) (s : OffState)
            → StandsOff layout mem self s → Booted layout mem s r.0 (saved r.1) (map report_seen r.2)) }
        ensures stores { IfOk result (λ r. r.0.spans.made
            ≡ boot_writes self.layout (cut_at self.layout self.image) (length self.layout)) }
        ensures sound { IsResting self }
        ensures refused { IfErr result (λ e. e.0 ≡ self) }
    {
        let mut open = self.open()?;
        match open.prepare() {
            Ok(prepared) => {
                settle_all(
                    &prepared.coders,
                    &mut open.spans,
                    &open.layout,
                    &prepared.logs,
                );
                let Prepared {
                    logs,
                    reports,
                    held,
                    coders,
                } = prepared;
                Ok((open.live(held, coders), logs, Report::from_vec(reports)))
            }
            Err(refused) => Err((open.close(), refused)),
        }
    }

    /// Makes the first `limit` stores of a boot, or all, and tells how many. Zones in front of the last store made are
    /// finished, and its own zone where that was its last; a zone within its erasure has that for its cut. All memory
    /// is taken before the first store; on a refusal the machine is as it was.
    pub fn boot_part(self, limit: u64) -> Result<(Off, u64), (Off, AllocError)>
        ensures parted { IfOk result (λ r. (layout : List AZone) (mem : ℕ) (s : OffState)
            → StandsOff layout mem self s → BootedInPart layout mem s limit r.0 r.1) }
        ensures sound { IsResting self }
        ensures refused { IfErr result (λ e. e.0 ≡ self) }
    {
        let mut open = self.open()?;
        match open.prepare_part() {
            Ok((prepared, mut passed)) => {
                let Prepared {
                    logs,
                    reports: _,
                    held,
                    coders,
                } = prepared;
                let progress = settle_part(
                    &coders,
                    &mut open.spans,
                    &open.layout,
                    &logs,
                    limit,
                    &mut passed,
                );
                pass_known(&mut open.zones, held, &passed, progress.is_whole);
                Ok((open.close(), limit - progress.left))
            }
            Err(refused) => Err((open.close(), refused)),
        }
    }
}
