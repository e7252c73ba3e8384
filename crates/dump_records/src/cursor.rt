// The cursor over the dump zones.
ghost use Rattle.std.specs.Prelude.{◌≡◌, ◌+◌, ◌%◌, ◌<◌};

/// The dump zones in turn, from the first on (`fs/pstore/ram.c`, `dump_write_cnt`).
#[derive(Clone, Copy, Debug)]
pub struct Cursor {
    zones: u32,
    place: u32,
    ghost in_turn: { place < zones },
}

impl Cursor {
    ghost use Rattle.dump_records.specs.Cursors.{place_of, zones_of};

    /// Stands at the first of the zones, of which there is at least one.
    pub fn new(zones: u32) -> Cursor
        requires { 0 < zones }
        ensures zones { zones_of result ≡ zones }
        ensures at { place_of result ≡ 0 }
    {
        Cursor { zones, place: 0 }
    }

    /// The index of the dump zone that the next dump goes to.
    pub fn at(&self) -> u32
        ensures at { result ≡ place_of self.now }
        ensures below { result < zones_of self.now }
    {
        self.place
    }

    /// Goes to the next zone, or to the first after the last.
    pub fn advance(&mut self)
        ensures zones { zones_of self.new ≡ zones_of self.old }
        ensures at { place_of self.new ≡ (place_of self.old + 1) % zones_of self.old }
    {
        self.place = (self.place + 1) % self.zones;
    }
}
