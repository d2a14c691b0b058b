// Table A7-10, three registers of different lengths.
ghost use Rattle.std.specs.Prelude.{◌≡◌, ℕ, ◌<◌, ◌/◌, ◌%◌, IfSome, get_or};
ghost use Rattle.tables.specs.Cells.{cell_at, cell_number, read_number};
ghost use Rattle.names.specs.Names.{number_of};
ghost use Rattle.register_tables.specs.Diff.{diff_cells, diff_shapes, diff_marks};

use insn::Mark::{self, T1, T2};
use tables::BLANK;
use tables::DiffShape::{self, Long, Narrow, Wide};

// A row for each U:A: the shape of its operands, its encoding, and its mnemonics by size.
const DIFF_ROWS: [(DiffShape, Mark, [u16; 4]); 32] = [
    (Long, T1, [272, 273, 274, BLANK]), // U=0 A=0000
    (Wide, T1, [275, 276, 277, BLANK]), // U=0 A=0001
    (Long, T1, [278, 279, 280, BLANK]), // U=0 A=0010
    (Wide, T1, [281, 282, 283, BLANK]), // U=0 A=0011
    (Narrow, T1, [284, 285, 286, BLANK]), // U=0 A=0100
    (Long, T2, [287, 288, 289, BLANK]), // U=0 A=0101
    (Narrow, T1, [290, 291, 292, BLANK]), // U=0 A=0110
    (Long, T2, [293, 294, 295, BLANK]), // U=0 A=0111
    (Long, T2, [296, 297, 298, BLANK]), // U=0 A=1000
    (Long, T1, [BLANK, 299, 300, BLANK]), // U=0 A=1001
    (Long, T2, [301, 302, 303, BLANK]), // U=0 A=1010
    (Long, T1, [BLANK, 304, 305, BLANK]), // U=0 A=1011
    (Long, T2, [306, 307, 308, BLANK]), // U=0 A=1100
    (Long, T1, [BLANK, 309, 310, BLANK]), // U=0 A=1101
    (Long, T2, [311, BLANK, BLANK, BLANK]), // U=0 A=1110
    (Long, T1, [BLANK, BLANK, BLANK, BLANK]), // U=0 A=1111
    (Long, T1, [312, 313, 314, BLANK]), // U=1 A=0000
    (Wide, T1, [315, 316, 317, BLANK]), // U=1 A=0001
    (Long, T1, [318, 319, 320, BLANK]), // U=1 A=0010
    (Wide, T1, [321, 322, 323, BLANK]), // U=1 A=0011
    (Narrow, T1, [324, 325, 326, BLANK]), // U=1 A=0100
    (Long, T2, [327, 328, 329, BLANK]), // U=1 A=0101
    (Narrow, T1, [330, 331, 332, BLANK]), // U=1 A=0110
    (Long, T2, [333, 334, 335, BLANK]), // U=1 A=0111
    (Long, T2, [336, 337, 338, BLANK]), // U=1 A=1000
    (Long, T1, [BLANK, BLANK, BLANK, BLANK]), // U=1 A=1001
    (Long, T2, [339, 340, 341, BLANK]), // U=1 A=1010
    (Long, T1, [BLANK, BLANK, BLANK, BLANK]), // U=1 A=1011
    (Long, T2, [342, 343, 344, BLANK]), // U=1 A=1100
    (Long, T1, [BLANK, BLANK, BLANK, BLANK]), // U=1 A=1101
    (Long, T1, [BLANK, BLANK, BLANK, BLANK]), // U=1 A=1110
    (Long, T1, [BLANK, BLANK, BLANK, BLANK]), // U=1 A=1111
];

// The row U:A; past the table, a blank one.
fn row(at: u8) -> (DiffShape, Mark, [u16; 4])
    ensures shape { result.0 ≡ get_or diff_shapes at DiffShape.Long }
    ensures mark { result.1 ≡ get_or diff_marks at Mark.T1 }
    ensures cells { (j : ℕ) → read_number (get_or result.2 j 65535) ≡ number_of (cell_at diff_cells at j) }
{
    DIFF_ROWS
        .get(at as usize)
        .copied()
        .unwrap_or((Long, T1, [BLANK; 4]))
}

// The mnemonic in the cell U:A:size.
pub fn cell(k: u8) -> Option<u16>
    ensures number { cell_number result ≡ number_of (cell_at diff_cells (k / 4) (k % 4)) }
    ensures named { IfSome result (λ m. m < 346) }
{
    let (_, _, cells) = row(k / 4);
    tables::cell_in(&cells, k % 4)
}

// The shape of the row U:A; a row past the table has that of a blank one.
pub fn shape(at: u8) -> DiffShape
    ensures { result ≡ get_or diff_shapes at DiffShape.Long }
{
    row(at).0
}

// The manual's name of the encoding of the row U:A; a row past the table has that of a blank one.
pub fn mark(at: u8) -> Mark
    ensures { result ≡ get_or diff_marks at Mark.T1 }
{
    row(at).1
}
