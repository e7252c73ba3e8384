// Lists of entries.
ghost use Rattle.std.specs.Prelude.{◌≡◌, List};
ghost use Rattle.ftrace_zone.specs.declared.Entry.{Entry as EntryValue};

use crate::Entry;
use std::marker::Model;

/// A list of entries.
#[derive(Drop)]
pub struct Entries {
    items: Vec<Entry>,
}

impl Model for Entries {
    ghost Value = { List EntryValue };

    ghost view = { λ e. e.items.items };
}

impl Entries {
    pub fn from_vec(v: Vec<Entry>) -> Self
        ensures { result ≡ v.items }
    {
        Entries { items: v }
    }

    pub fn as_slice(&self) -> &[Entry]
        ensures { result.now ≡ self.now }
    {
        &self.items
    }
}
