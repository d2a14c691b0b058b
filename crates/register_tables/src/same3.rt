// Table A7-9, three registers of the same length.
ghost use Rattle.std.specs.Prelude.{◌≡◌, ◌<◌, ◌/◌, ◌%◌, IfSome};
ghost use Rattle.tables.specs.Cells.{cell_at, cell_number};
ghost use Rattle.names.specs.Names.{number_of};
ghost use Rattle.register_tables.specs.Same3.{same3};

use tables::BLANK;

// A row for each U:opc; in it the four sizes where B is 0, then those where B is 1.
const SAME3: [u16; 256] = [
    0, 1, 2, BLANK, 3, 4, 5, 6, // U=0 opc=0000
    7, 8, 9, BLANK, 10, 11, 12, 13, // U=0 opc=0001
    14, 15, 16, BLANK, 17, 18, 19, 20, // U=0 opc=0010
    21, 22, 23, BLANK, 24, 25, 26, BLANK, // U=0 opc=0011
    27, 28, 29, 30, 31, 32, 33, 34, // U=0 opc=0100
    35, 36, 37, 38, 39, 40, 41, 42, // U=0 opc=0101
    43, 44, 45, BLANK, 46, 47, 48, BLANK, // U=0 opc=0110
    49, 50, 51, BLANK, 52, 53, 54, BLANK, // U=0 opc=0111
    55, 56, 57, 58, 59, 60, 61, BLANK, // U=0 opc=1000
    62, 63, 64, BLANK, 65, 66, 67, BLANK, // U=0 opc=1001
    68, 69, 70, BLANK, 71, 72, 73, BLANK, // U=0 opc=1010
    BLANK, 74, 75, BLANK, 76, 77, 78, BLANK, // U=0 opc=1011
    BLANK, BLANK, BLANK, BLANK, 79, BLANK, 80, BLANK, // U=0 opc=1100
    81, BLANK, 82, BLANK, 83, BLANK, 84, BLANK, // U=0 opc=1101
    85, BLANK, BLANK, BLANK, BLANK, BLANK, BLANK, BLANK, // U=0 opc=1110
    86, BLANK, 87, BLANK, 88, BLANK, 89, BLANK, // U=0 opc=1111
    90, 91, 92, BLANK, 93, 94, 95, 96, // U=1 opc=0000
    97, 98, 99, BLANK, 100, 101, 102, 103, // U=1 opc=0001
    104, 105, 106, BLANK, 107, 108, 109, 110, // U=1 opc=0010
    111, 112, 113, BLANK, 114, 115, 116, BLANK, // U=1 opc=0011
    117, 118, 119, 120, 121, 122, 123, 124, // U=1 opc=0100
    125, 126, 127, 128, 129, 130, 131, 132, // U=1 opc=0101
    133, 134, 135, BLANK, 136, 137, 138, BLANK, // U=1 opc=0110
    139, 140, 141, BLANK, 142, 143, 144, BLANK, // U=1 opc=0111
    145, 146, 147, 148, 149, 150, 151, BLANK, // U=1 opc=1000
    152, 153, 154, BLANK, 155, BLANK, BLANK, BLANK, // U=1 opc=1001
    156, 157, 158, BLANK, 159, 160, 161, BLANK, // U=1 opc=1010
    BLANK, 162, 163, BLANK, BLANK, BLANK, BLANK, BLANK, // U=1 opc=1011
    BLANK, BLANK, BLANK, BLANK, BLANK, BLANK, BLANK, BLANK, // U=1 opc=1100
    164, BLANK, 165, BLANK, 166, BLANK, BLANK, BLANK, // U=1 opc=1101
    167, BLANK, 168, BLANK, 169, BLANK, 170, BLANK, // U=1 opc=1110
    171, BLANK, 172, BLANK, BLANK, BLANK, BLANK, BLANK, // U=1 opc=1111
];

// The mnemonic in the cell U:opc:B:size.
pub fn cell(k: u8) -> Option<u16>
    ensures number { cell_number result ≡ number_of (cell_at same3 (k / 4) (k % 4)) }
    ensures named { IfSome result (λ m. m < 346) }
{
    tables::cell_in(&SAME3, k)
}
