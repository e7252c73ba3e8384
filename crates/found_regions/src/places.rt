// Where in a memory the region lies that is asked for.
ghost use Rattle.std.specs.Prelude.{◌≡◌};
ghost use Rattle.found_regions.specs.Places.{address_asked, first_address, place_from, place_asked};

fn address_asked(first: Option<u64>, at: Option<u64>, said: Option<u64>) -> Option<u64>
    ensures { result ≡ address_asked first at said }
{
    match at {
        Some(at) => Some(at),
        None if first.is_some() => said,
        None => None,
    }
}

/// The address of a memory's first byte, 0 if it is not known.
pub fn first_address(first: Option<u64>) -> u64
    ensures { result ≡ first_address first }
{
    match first {
        Some(first) => first,
        None => 0,
    }
}

fn place_from(first: u64, address: Option<u64>) -> Result<Option<u64>, u64>
    ensures { result ≡ place_from first address }
{
    match address {
        Some(address) if address < first => Err(address),
        Some(address) => Ok(Some(address - first)),
        None => Ok(None),
    }
}

/// The place of the region in a memory whose first byte has the address `first`, if that is known: what `at` names, or
/// else the address that a command line or a device tree gives it, `said`. An address before the first is refused.
pub fn place_asked(
    first: Option<u64>,
    at: Option<u64>,
    said: Option<u64>,
) -> Result<Option<u64>, u64>
    ensures { result ≡ place_asked first at said }
{
    place_from(first_address(first), address_asked(first, at, said))
}
