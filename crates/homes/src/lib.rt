// The inverse of the tables: where a mnemonic is written.
#![tactic(auto)]

ghost use Rattle.std.specs.Prelude.{false, ◌≡◌};
ghost use Rattle.names.specs.Names.{name_of};
ghost use Rattle.homes.specs.Home.{home_of};

use names::{COUNT, VMOV};

// The table that has a mnemonic's name, and the name's first cell there.
#[derive(Clone, Copy)]
pub enum Home {
    Same3(u8), // table A7-9, the cell U:opc:B:size
    Shift(u8), // table A7-12, the cell U:A:B:size
    Vmovl(u8), // the names of VSHLL by 0, the cell U:size
    Modimm(u8), // table A7-14, the cell op:cmode
    Diff(u8), // table A7-10, the cell U:A:size
    Vmov,
    Nowhere,
}

// The first mnemonics of table A7-12, of VSHLL by 0, and of tables A7-14 and A7-10; those of A7-9 begin with 0.
const SHIFT: u16 = 173;

const VMOVL: u16 = 255;

const MODIMM: u16 = 261;

const DIFF: u16 = 272;

// The cell of each mnemonic, ten to a row, and 0 for vmov; the number after a row is its first mnemonic.
const CELLS: [u8; 346] = [
    0, 1, 2, 4, 5, 6, 7, 8, 9, 10, // 0
    12, 13, 14, 15, 16, 17, 18, 20, 21, 22, // 10
    23, 24, 25, 26, 28, 29, 30, 32, 33, 34, // 20
    35, 36, 37, 38, 39, 40, 41, 42, 43, 44, // 30
    45, 46, 47, 48, 49, 50, 52, 53, 54, 56, // 40
    57, 58, 60, 61, 62, 64, 65, 66, 67, 68, // 50
    69, 70, 72, 73, 74, 76, 77, 78, 80, 81, // 60
    82, 84, 85, 86, 89, 90, 92, 93, 94, 100, // 70
    102, 104, 106, 108, 110, 112, 120, 122, 124, 126, // 80
    128, 129, 130, 132, 133, 134, 135, 136, 137, 138, // 90
    140, 141, 142, 143, 144, 145, 146, 148, 149, 150, // 100
    151, 152, 153, 154, 156, 157, 158, 160, 161, 162, // 110
    163, 164, 165, 166, 167, 168, 169, 170, 171, 172, // 120
    173, 174, 175, 176, 177, 178, 180, 181, 182, 184, // 130
    185, 186, 188, 189, 190, 192, 193, 194, 195, 196, // 140
    197, 198, 200, 201, 202, 204, 208, 209, 210, 212, // 150
    213, 214, 217, 218, 232, 234, 236, 240, 242, 244, // 160
    246, 248, 250, 0, 1, 2, 3, 8, 9, 10, // 170
    11, 16, 17, 18, 19, 24, 25, 26, 27, 40, // 180
    41, 42, 43, 64, 65, 66, 68, 69, 70, 72, // 190
    73, 74, 76, 77, 78, 80, 81, 82, 112, 120, // 200
    128, 129, 130, 131, 136, 137, 138, 139, 144, 145, // 210
    146, 147, 152, 153, 154, 155, 160, 161, 162, 163, // 220
    168, 169, 170, 171, 176, 177, 178, 179, 192, 193, // 230
    194, 196, 197, 198, 200, 201, 202, 204, 205, 206, // 240
    208, 209, 210, 240, 248, 0, 1, 2, 4, 5, // 250
    6, 0, 1, 8, 9, 14, 15, 16, 17, 24, // 260
    25, 30, 0, 1, 2, 4, 5, 6, 8, 9, // 270
    10, 12, 13, 14, 16, 17, 18, 20, 21, 22, // 280
    24, 25, 26, 28, 29, 30, 32, 33, 34, 37, // 290
    38, 40, 41, 42, 45, 46, 48, 49, 50, 53, // 300
    54, 56, 64, 65, 66, 68, 69, 70, 72, 73, // 310
    74, 76, 77, 78, 80, 81, 82, 84, 85, 86, // 320
    88, 89, 90, 92, 93, 94, 96, 97, 98, 104, // 330
    105, 106, 112, 113, 114, 0, // 340
];

// Where mnemonic m is written if its third operand is no number.
fn plain_home(m: u16) -> Home
    ensures { result ≡ home_of (name_of m) false }
{
    if COUNT <= m {
        return Home::Nowhere;
    }
    let cell = CELLS[m as usize];
    match m {
        0..SHIFT => Home::Same3(cell),
        SHIFT..VMOVL => Home::Shift(cell),
        VMOVL..MODIMM => Home::Vmovl(cell),
        MODIMM..DIFF => Home::Modimm(cell),
        DIFF..VMOV => Home::Diff(cell),
        _ => Home::Vmov,
    }
}

// Where mnemonic m is written, by whether its third operand is a number: then VQSHL, 31 to 34 and 121 to 124, is at home in table A7-12.
pub fn home_of(m: u16, number: bool) -> Home
    ensures { result ≡ home_of (name_of m) number }
{
    match m {
        31..35 if number => Home::Shift((m + 25) as u8),
        121..125 if number => Home::Shift((m + 63) as u8),
        _ => plain_home(m),
    }
}
