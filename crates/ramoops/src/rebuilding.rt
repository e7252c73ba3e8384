// A blank store that is told the logs of another.
ghost use Rattle.std.specs.Prelude.{◌≡◌, ◌<◌, length, map, option_to_list, replicate, slice_get, Some, None, IfOk};
ghost use Rattle.std.specs.Prelude.{OnOk};
ghost use Rattle.zone_spec.specs.Records.{Saved, found};
ghost use Rattle.zone_spec.specs.Reading.{ZoneReading};
ghost use Rattle.std.specs.Option.{option_copied};
ghost use Rattle.zone_spec.specs.Told.{Append};
ghost use Rattle.ramoops_layout.specs.Laid.{params_of, zones_of};
ghost use Rattle.machine_spec.specs.ZoneCalls.{begun};
ghost use Rattle.machine_spec.specs.Moved.{with_log, moved};
ghost use Rattle.move_laws.specs.Moves.{LogsFit};
ghost use Rattle.prz_read.specs.Saving.{saved};
ghost use Rattle.ramoops.specs.OffSeen.{StandsOff};
ghost use Rattle.ramoops.specs.LiveSeen.{ChangesZone};
ghost use Rattle.ramoops.specs.Rebuilt.{ReadsAsTold};
ghost use Rattle.ramoops.specs.Refilling.{IsBlankAt, SaysBlank, RefillsNext, RefillsAll};

use crate::live::dump_flight;
use crate::zones::start;
use crate::{Live, Off};
use move_laws::{
    moved_image_is_sound, moved_image_lists, moved_image_reads, moved_zones_are_told,
    moved_zones_read,
};
use outside::Bytes;
use prz_read::{Logs, Reading};
use prz_write::Call;
use ramoops_layout::types::Layout;
use std::alloc::{AllocError, Global};
use zone_spec::State;

// So many zero bytes.
fn zeros(alloc: Global, count: u32) -> Result<Bytes, AllocError>
    ensures { IfOk result (λ bytes. bytes ≡ replicate count 0) }
{
    let bytes = vec![in alloc; 0u8; count as usize]?;
    Ok(Bytes::from_vec(bytes))
}

impl Live {
    // Tells whether zone `i` is told nothing yet, and no call is in flight there.
    fn is_blank(&self, i: u32) -> bool
        requires { i < length self.now.layout }
        ensures { SaysBlank i self.now result }
    {
        let held = &self.zones[i as usize];
        held.flight.is_none() && held.told.len() == 0
    }

    // Begins an append of a log in zone `i`, which is blank. It can be a dump zone.
    fn begin_log(&mut self, i: u32, log: Bytes)
        requires within { i < length self.old.layout }
        requires blank { IsBlankAt i self.old }
        ensures layout { self.new.layout ≡ self.old.layout }
        ensures begun { ChangesZone (λ z live. begun z (Append log) live) i self.old self.new }
    {
        let _len = log.len();
        let zone = self.layout.zones()[i as usize];
        let span = &self.spans.all()[i as usize];
        let _size = span.len();
        let flies = start(zone, span, &mut self.zones[i as usize], Call::Append(log));
        self.flying_dumps += dump_flight(&zone, flies);
    }

    // Appends a log to zone `i`, if that is blank.
    fn add_log(&mut self, i: u32, log: Bytes)
        requires { i < length self.old.layout }
        ensures { ChangesZone (λ z live. with_log z live log) i self.old self.new }
    {
        if self.is_blank(i) {
            self.begin_log(i, log);
            let _stored = self.store_all(i);
        }
    }
}

// The reading of zone `i` of the logs, if that was found and is not forgotten.
fn found_at(logs: &Logs, i: u32) -> Option<&Reading>
    requires { i < length logs.now.readings }
    ensures { (s : Saved) → slice_get (saved logs.now) i ≡ Some s
        → option_to_list (option_copied result) ≡ found s.1 }
{
    let reading = logs.reading(i)?;
    match reading.state {
        State::Found => Some(reading),
        State::Empty | State::Invalid | State::Unsigned => None,
    }
}

// Its log.
fn log_at(logs: &Logs, i: u32) -> Option<&[u8]>
    requires { i < length logs.now.readings }
    ensures { (s : Saved) → slice_get (saved logs.now) i ≡ Some s
        → option_to_list (option_copied result) ≡ map (λ (r : ZoneReading). r.log) (found s.1) }
{
    let reading = found_at(logs, i)?;
    Some(reading.log.as_slice())
}

// Appends the log of zone `i` of the logs, if that was found, to the zone of its name.
fn refill(alloc: Global, live: &mut Live, logs: &Logs, i: u32) -> Result<(), AllocError>
    requires { i < length logs.now.readings }
    ensures { OnOk result ((s : Saved) → slice_get (saved logs.now) i ≡ Some s → RefillsNext s live.old live.new) }
{
    let _zones = live.zones();
    let log = match log_at(logs, i) {
        Some(log) => log,
        None => return Ok(()),
    };
    let place = match live.place(logs.name(i)) {
        Some(place) => place,
        None => return Ok(()),
    };
    let bytes = Bytes::copy_of(alloc, log)?;
    live.add_log(place, bytes);
    Ok(())
}

// Appends each log that was found to the zone of its name.
fn refill_all(alloc: Global, live: &mut Live, logs: &Logs) -> Result<(), AllocError>
    ensures { OnOk result (RefillsAll (saved logs.now) live.old live.new) }
{
    for i in 0..logs.len() {
        refill(alloc, live, logs, i)?;
    }
    Ok(())
}

impl Off {
    /// A store of this layout that is told these logs: a blank image of `mem` bytes after a boot, an append to each
    /// zone of the log that was found of the zone of its name, and a stop. A log whose name the layout has not is left
    /// away, and of one with more bytes than its zone takes the last stay.
    pub fn rebuilt(alloc: Global, layout: Layout, logs: &Logs) -> Result<Off, AllocError>
        ensures stands { IfOk result (λ off. StandsOff (zones_of layout) (params_of layout).mem off
            (moved (zones_of layout) (params_of layout).mem (saved logs.now))) }
        ensures reads { IfOk result (λ _. LogsFit (zones_of layout) (saved logs.now)
            → ReadsAsTold (zones_of layout) (params_of layout).mem (saved logs.now)) }
    {
        let _zones = layout.zones();
        moved_image_is_sound();
        moved_zones_are_told();
        moved_image_reads();
        moved_zones_read();
        moved_image_lists();
        let image = zeros(alloc, layout.mem())?;
        let off = Off::fresh(alloc, layout, image)?;
        let mut live = match off.boot() {
            Ok((live, _, _)) => live,
            Err(_) => return Err(AllocError),
        };
        refill_all(alloc, &mut live, logs)?;
        Ok(live.stop())
    }
}
