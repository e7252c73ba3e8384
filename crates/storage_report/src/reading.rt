// The report of a storage's bytes.
ghost use Rattle.std.specs.Prelude.{◌≡◌, None, IfOk};
ghost use Rattle.psz_spec.specs.Layouts.{size_fault};
ghost use Rattle.report_tool.specs.Shown.{AreOf};
ghost use Rattle.storage_report.specs.Reports.{IsRead};

use region_report::{Origin, Report, shown_records};
use std::alloc::{AllocError, Global};
use storage_spec::Storage;
use storage_zones::{ZonesRead, held_records, read_zones};
use symbols::Symbols;
use zone_spec::Zone;

/// The report of a storage, and its zones.
#[derive(Drop)]
pub struct StorageRead {
    pub zones: Vec<Zone>,
    pub report: Report,
}

// The zones, their readings and the records.
fn read_all(
    alloc: Global,
    storage: &Storage,
    symbols: &Symbols,
    image: &[u8],
) -> Result<StorageRead, AllocError>
    requires { size_fault storage.now.sizes ≡ None }
    ensures { IfOk result (IsRead storage.now symbols.now image.now) }
{
    let ZonesRead { zones, logs, parts } = read_zones(
        alloc,
        storage.machine,
        &storage.sizes,
        image,
    )?;
    let held = held_records(alloc, storage.machine, &storage.sizes, image)?;
    let records = shown_records(alloc, &zones, symbols, held)?;
    let report = Report::of_zones(Origin::Storage, logs, parts, records);
    Ok(StorageRead { zones, report })
}

/// The report of a storage, with the functions of a map. Each zone's header is read once, each packed dump inflated
/// once.
pub fn read(
    alloc: Global,
    storage: &Storage,
    symbols: &Symbols,
    image: &[u8],
) -> Result<StorageRead, AllocError>
    requires { size_fault storage.now.sizes ≡ None }
    ensures read { IfOk result (IsRead storage.now symbols.now image.now) }
    ensures zones { IfOk result (λ read. AreOf read.zones.items read.report) }
{
    let read = read_all(alloc, storage, symbols, image)?;
    Ok(read)
}
