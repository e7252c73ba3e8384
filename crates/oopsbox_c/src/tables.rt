// A table of the caller's, which makes parity fast. A number of 128 bits cannot cross to C, so a row is two halves.
ghost use Rattle.std.specs.Prelude.{◌≡◌, ◌≤◌, ◌<◌, ◌^◌, ◌↔◌, [], IsTrue, IsFalse, length, slice_index};
ghost use Rattle.rs_encode.specs.Lanes.{IsTable};
ghost use Rattle.oopsbox_c.specs.Ends.{status_of};
ghost use Rattle.oopsbox_c.specs.Tables.{fits_table, table_end, row_value, rows_in, IsLendable};

use crate::End;
use rs_encode::fill_table;

const HALF: u128 = 0x1_0000_0000_0000_0000;

/// One row of a table: the halves of its number.
#[repr(C)]
#[derive(Clone, Copy, Debug, Default, PartialEq, Eq)]
pub struct TableRow {
    pub low: u64,
    pub high: u64,
}

fn row_value(row: TableRow) -> u128
    ensures { result ≡ row_value row }
{
    u128::from(row.high) * HALF + u128::from(row.low)
}

fn row_of(value: u128) -> TableRow
    requires { value < 2 ^ 128 }
    ensures { row_value result ≡ value }
{
    TableRow {
        low: (value % HALF) as u64,
        high: (value / HALF) as u64,
    }
}

// Whether a table for so many parity bytes has so many rows.
fn fits_table(parity: u32, rows: usize) -> bool
    ensures { result ≡ fits_table parity rows }
{
    1 <= parity && parity <= 127 && rows == 256
}

/// Whether as many rows as this can be lent.
pub(crate) fn is_lendable(table: &[TableRow]) -> bool
    ensures { IsTrue result ↔ IsLendable table.now }
{
    table.is_empty() || table.len() == 256
}

// Makes `rows` the numbers of the rows of a whole table.
fn read_rows(table: &[TableRow], rows: &mut [u128; 256])
    requires { length table.now ≡ 256 }
    ensures { rows.new ≡ rows_in table.now }
{
    for i in 0..256usize {
        rows[i] = row_value(table[i]);
    }
}

/// The numbers of the table's rows, which stand in `rows` then; none of no table.
pub(crate) fn lend<'a>(table: &[TableRow], rows: &'a mut [u128; 256]) -> &'a [u128]
    requires { IsLendable table.now }
    ensures { result.now ≡ rows_in table.now }
{
    if table.is_empty() {
        return &[];
    }
    read_rows(table, rows);
    rows.as_slice()
}

// Makes the rows those of these numbers.
fn store_rows(rows: &[u128], table: &mut [TableRow])
    requires rows { length rows.now ≡ 256 }
    requires table { length table.old ≡ 256 }
    ensures { rows_in table.new ≡ rows.now }
{
    for i in 0..256usize {
        table[i] = row_of(rows[i]);
    }
}

/// Makes `table` the encoder's table for so many parity bytes.
#[unsafe(no_mangle)]
pub extern "C" fn oopsbox_table(parity: u32, table: &mut [TableRow]) -> u32
    ensures answer { result ≡ status_of (table_end parity (length table.old)) }
    ensures filled { IsTrue (fits_table parity (length table.old)) → IsTable parity (rows_in table.new) }
    ensures kept { IsFalse (fits_table parity (length table.old)) → table.new ≡ table.old }
{
    if !fits_table(parity, table.len()) {
        return End::Argument.status();
    }
    let mut rows = [0u128; 256];
    fill_table(parity as usize, &mut rows);
    store_rows(&rows, table);
    End::Done.status()
}
