// Lists of names.
use zone_spec::Name;

/// A list of names.
pub type Names = Vec<Name>;
