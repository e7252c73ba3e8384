// Whether a zone can be opened.
ghost use Rattle.std.specs.Prelude.{◌≡◌, ◌+◌, ◌≤◌, ◌↔◌, length, IsTrue};
ghost use Rattle.zone_spec.specs.Zones.{IsValidZone};
ghost use Rattle.zone_spec.specs.Parts.{standing_words};
ghost use Rattle.machine_spec.specs.Zones.{zone_bytes};
ghost use Rattle.shared_spec.specs.Machine.{CanShare};
ghost use Rattle.ramoops_layout.specs.Laid.{params_of, zones_of};
ghost use Rattle.shared_spec.specs.Histories.{CanOpen};
ghost use Rattle.shared_ring.specs.Seats.{IsOpenRing};

use outside::Bytes;
use ramoops_layout::types::Layout;
use zone_spec::{Words, Zone, ZoneName};

// The words of a zone's bytes.
fn words_of(zone: &Zone, bytes: &[u8]) -> Words
    requires { 12 ≤ length bytes.now }
    ensures { result ≡ standing_words zone.now bytes.now }
{
    let order = zone.byte_order;
    Words {
        sig: order.word(&bytes[0..4]),
        start: order.word(&bytes[4..8]),
        size: order.word(&bytes[8..12]),
    }
}

// Whether the words are a ring that can be appended to.
fn is_open_ring(words: &Words, cap: u32) -> bool
    ensures { IsTrue result ↔ IsOpenRing words.now cap }
{
    words.start <= words.size
        && words.size <= cap
        && words.start < cap
        && (words.size == cap || words.start == words.size)
}

// Whether the zone can be shared as it stands in the image.
fn can_share(image: &[u8], zone: &Zone) -> bool
    requires valid { IsValidZone zone.now }
    requires within { zone.now.at + zone.now.size ≤ length image.now }
    ensures { IsTrue result ↔ CanShare zone.now (zone_bytes zone.now image.now) }
{
    let at = zone.at as usize;
    let words = words_of(zone, &image[at..at + zone.size as usize]);
    if zone.parity != 0 || words.sig != zone.sig {
        return false;
    }
    is_open_ring(&words, zone.cap)
}

/// Tells whether the zone of this name can be opened as it stands in the image.
pub fn can_open(image: &Bytes, layout: &Layout, name: ZoneName) -> bool
    requires { length image.now ≡ (params_of layout.now).mem }
    ensures { IsTrue result ↔ CanOpen (zones_of layout.now) name image.now }
{
    match layout.find(name) {
        Some(place) => can_share(image.as_slice(), &layout.zones()[place as usize]),
        None => false,
    }
}
