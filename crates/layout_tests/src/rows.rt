// Worked layouts, each a theorem.
ghost use Rattle.layout_tests.specs.Rows.{TwoEmptyZones, OneDamagedHeader, TwoOrders, TwoByteOrders};

/// Two empty zones.
pub fn two_empty_zones()
    ensures { TwoEmptyZones }
{}

/// One of two headers is damaged.
pub fn one_damaged_header()
    ensures { OneDamagedHeader }
{}

/// Two empty zones of a big-endian machine.
pub fn two_byte_orders()
    ensures { TwoByteOrders }
{}

/// Pmsg before ftrace, and ftrace before pmsg.
pub fn two_orders()
    ensures { TwoOrders }
{}
