//! The laws of device trees, and worked rows on trees that dtc wrote. Each law is a function whose contract it is.
#![tactic(auto)]

ghost use Rattle.dtb_laws.specs.Laws.{EnoughTokens, EnoughProperties, AreLinesOfNodes};
ghost use Rattle.dtb_laws.specs.Rows.{SmallRow, CutRow, TokenRow, FirstCellRow, OldBoardRow, LargeRow, ShortRow};
ghost use Rattle.dtb_laws.specs.Rows.{StatusRow, ReservedRow, TracedRow};

/// The nodes are the same however many more tokens may be read, so the number that the definition counts down is no
/// limit.
pub fn enough_tokens()
    ensures { EnoughTokens }
{}

/// The same for a node's properties.
pub fn enough_properties()
    ensures { EnoughProperties }
{}

/// A line of nodes has one node at least, and 64 at most.
pub fn are_lines_of_nodes()
    ensures { AreLinesOfNodes }
{}

/// A tree with one ramoops node, the same cut off and with another token; each rule of the kernel for numbers and
/// status on a second tree; and where console and pmsg get no size from that of records.
pub fn rows()
    ensures small { SmallRow }
    ensures cut { CutRow }
    ensures token { TokenRow }
    ensures first_cell { FirstCellRow }
    ensures old_board { OldBoardRow }
    ensures large { LargeRow }
    ensures short { ShortRow }
    ensures status { StatusRow }
    ensures reserved { ReservedRow }
    ensures traced { TracedRow }
{}
