// How the code has the manual's tables: blank cells, the classes and the shapes of rows, and the lengths of their operands.
#![tactic(auto)]

ghost use Rattle.std.specs.Prelude.{◌≡◌, ◌<◌, IfSome, get_or};
ghost use Rattle.tables.specs.Cells.{cell_number, read_number};

use names::COUNT;

pub mod lengths;

// What a blank cell of a table holds: a number that is no mnemonic's.
pub const BLANK: u16 = 65535;

// The mnemonic in a cell; a blank one has none.
pub fn mnemonic(cell: u16) -> Option<u16>
    ensures number { cell_number result ≡ read_number cell }
    ensures named { IfSome result (λ m. m < 346) }
{
    if cell < COUNT { Some(cell) } else { None }
}

// The number in a table's cell; past the table the cells are blank.
pub fn number_in(table: &[u16], k: u8) -> u16
    ensures { result ≡ get_or table.now k 65535 }
{
    table.get(k as usize).copied().unwrap_or(BLANK)
}

// The mnemonic in a table's cell.
pub fn cell_in(table: &[u16], k: u8) -> Option<u16>
    ensures number { cell_number result ≡ read_number (get_or table.now k 65535) }
    ensures named { IfSome result (λ m. m < 346) }
{
    mnemonic(number_in(table, k))
}

// How the rows of table A7-12 read their amount.
#[derive(Clone, Copy)]
pub enum ShiftClass {
    Right,
    Left,
    Narrow,
    Long,
    Convert,
}

// The operands of the rows of table A7-10: long is Q D D, wide Q Q D, narrow D Q Q.
#[derive(Clone, Copy)]
pub enum DiffShape {
    Long,
    Wide,
    Narrow,
}
