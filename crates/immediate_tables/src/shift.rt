// Table A7-12, two registers and a shift amount, and the names of VSHLL by 0.
ghost use Rattle.std.specs.Prelude.{◌≡◌, ℕ, ◌<◌, ◌/◌, ◌%◌, IfSome, get_or};
ghost use Rattle.tables.specs.Cells.{cell_at, cell_number, read_number};
ghost use Rattle.names.specs.Names.{number_of};
ghost use Rattle.immediate_tables.specs.Shift.{shift_cells, shift_classes, vmovl};

use tables::BLANK;
use tables::ShiftClass::{self, Convert, Left, Long, Narrow, Right};

// A row for each U:A:B: how its amounts are read, and its mnemonics by size.
const SHIFT_ROWS: [(ShiftClass, [u16; 4]); 64] = [
    (Right, [173, 174, 175, 176]), // U=0 A=0000 B=0
    (Right, [173, 174, 175, 176]), // U=0 A=0000 B=1
    (Right, [177, 178, 179, 180]), // U=0 A=0001 B=0
    (Right, [177, 178, 179, 180]), // U=0 A=0001 B=1
    (Right, [181, 182, 183, 184]), // U=0 A=0010 B=0
    (Right, [181, 182, 183, 184]), // U=0 A=0010 B=1
    (Right, [185, 186, 187, 188]), // U=0 A=0011 B=0
    (Right, [185, 186, 187, 188]), // U=0 A=0011 B=1
    (Right, [BLANK, BLANK, BLANK, BLANK]), // U=0 A=0100 B=0
    (Right, [BLANK, BLANK, BLANK, BLANK]), // U=0 A=0100 B=1
    (Left, [189, 190, 191, 192]), // U=0 A=0101 B=0
    (Left, [189, 190, 191, 192]), // U=0 A=0101 B=1
    (Right, [BLANK, BLANK, BLANK, BLANK]), // U=0 A=0110 B=0
    (Right, [BLANK, BLANK, BLANK, BLANK]), // U=0 A=0110 B=1
    (Left, [31, 32, 33, 34]), // U=0 A=0111 B=0
    (Left, [31, 32, 33, 34]), // U=0 A=0111 B=1
    (Narrow, [193, 194, 195, BLANK]), // U=0 A=1000 B=0
    (Narrow, [196, 197, 198, BLANK]), // U=0 A=1000 B=1
    (Narrow, [199, 200, 201, BLANK]), // U=0 A=1001 B=0
    (Narrow, [202, 203, 204, BLANK]), // U=0 A=1001 B=1
    (Long, [205, 206, 207, BLANK]), // U=0 A=1010 B=0
    (Right, [BLANK, BLANK, BLANK, BLANK]), // U=0 A=1010 B=1
    (Right, [BLANK, BLANK, BLANK, BLANK]), // U=0 A=1011 B=0
    (Right, [BLANK, BLANK, BLANK, BLANK]), // U=0 A=1011 B=1
    (Right, [BLANK, BLANK, BLANK, BLANK]), // U=0 A=1100 B=0
    (Right, [BLANK, BLANK, BLANK, BLANK]), // U=0 A=1100 B=1
    (Right, [BLANK, BLANK, BLANK, BLANK]), // U=0 A=1101 B=0
    (Right, [BLANK, BLANK, BLANK, BLANK]), // U=0 A=1101 B=1
    (Convert, [208, BLANK, BLANK, BLANK]), // U=0 A=1110 B=0
    (Convert, [208, BLANK, BLANK, BLANK]), // U=0 A=1110 B=1
    (Convert, [209, BLANK, BLANK, BLANK]), // U=0 A=1111 B=0
    (Convert, [209, BLANK, BLANK, BLANK]), // U=0 A=1111 B=1
    (Right, [210, 211, 212, 213]), // U=1 A=0000 B=0
    (Right, [210, 211, 212, 213]), // U=1 A=0000 B=1
    (Right, [214, 215, 216, 217]), // U=1 A=0001 B=0
    (Right, [214, 215, 216, 217]), // U=1 A=0001 B=1
    (Right, [218, 219, 220, 221]), // U=1 A=0010 B=0
    (Right, [218, 219, 220, 221]), // U=1 A=0010 B=1
    (Right, [222, 223, 224, 225]), // U=1 A=0011 B=0
    (Right, [222, 223, 224, 225]), // U=1 A=0011 B=1
    (Right, [226, 227, 228, 229]), // U=1 A=0100 B=0
    (Right, [226, 227, 228, 229]), // U=1 A=0100 B=1
    (Left, [230, 231, 232, 233]), // U=1 A=0101 B=0
    (Left, [230, 231, 232, 233]), // U=1 A=0101 B=1
    (Left, [234, 235, 236, 237]), // U=1 A=0110 B=0
    (Left, [234, 235, 236, 237]), // U=1 A=0110 B=1
    (Left, [121, 122, 123, 124]), // U=1 A=0111 B=0
    (Left, [121, 122, 123, 124]), // U=1 A=0111 B=1
    (Narrow, [238, 239, 240, BLANK]), // U=1 A=1000 B=0
    (Narrow, [241, 242, 243, BLANK]), // U=1 A=1000 B=1
    (Narrow, [244, 245, 246, BLANK]), // U=1 A=1001 B=0
    (Narrow, [247, 248, 249, BLANK]), // U=1 A=1001 B=1
    (Long, [250, 251, 252, BLANK]), // U=1 A=1010 B=0
    (Right, [BLANK, BLANK, BLANK, BLANK]), // U=1 A=1010 B=1
    (Right, [BLANK, BLANK, BLANK, BLANK]), // U=1 A=1011 B=0
    (Right, [BLANK, BLANK, BLANK, BLANK]), // U=1 A=1011 B=1
    (Right, [BLANK, BLANK, BLANK, BLANK]), // U=1 A=1100 B=0
    (Right, [BLANK, BLANK, BLANK, BLANK]), // U=1 A=1100 B=1
    (Right, [BLANK, BLANK, BLANK, BLANK]), // U=1 A=1101 B=0
    (Right, [BLANK, BLANK, BLANK, BLANK]), // U=1 A=1101 B=1
    (Convert, [253, BLANK, BLANK, BLANK]), // U=1 A=1110 B=0
    (Convert, [253, BLANK, BLANK, BLANK]), // U=1 A=1110 B=1
    (Convert, [254, BLANK, BLANK, BLANK]), // U=1 A=1111 B=0
    (Convert, [254, BLANK, BLANK, BLANK]), // U=1 A=1111 B=1
];

const VMOVL_NAMES: [u16; 8] = [
    255, 256, 257, BLANK, // U=0
    258, 259, 260, BLANK, // U=1
];

// The row U:A:B; past the table, a blank one.
fn row(at: u8) -> (ShiftClass, [u16; 4])
    ensures class { result.0 ≡ get_or shift_classes at ShiftClass.Right }
    ensures cells { (j : ℕ) → read_number (get_or result.1 j 65535) ≡ number_of (cell_at shift_cells at j) }
{
    SHIFT_ROWS
        .get(at as usize)
        .copied()
        .unwrap_or((Right, [BLANK; 4]))
}

// The mnemonic in the cell U:A:B:size.
pub fn cell(k: u8) -> Option<u16>
    ensures number { cell_number result ≡ number_of (cell_at shift_cells (k / 4) (k % 4)) }
    ensures named { IfSome result (λ m. m < 346) }
{
    let (_, cells) = row(k / 4);
    tables::cell_in(&cells, k % 4)
}

// How the amounts of the row U:A:B are read; a row past the table is read as a blank one.
pub fn class(at: u8) -> ShiftClass
    ensures { result ≡ get_or shift_classes at ShiftClass.Right }
{
    row(at).0
}

// The mnemonic of VSHLL by 0 in the cell U:size.
pub fn vmovl_cell(k: u8) -> u16
    ensures { result ≡ number_of (cell_at vmovl (k / 4) (k % 4)) }
{
    tables::number_in(&VMOVL_NAMES, k)
}
