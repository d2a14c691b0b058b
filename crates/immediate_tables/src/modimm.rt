// Table A7-14, one register and a modified immediate.
ghost use Rattle.std.specs.Prelude.{◌≡◌, ◌<◌, ◌/◌, ◌%◌, IfSome};
ghost use Rattle.tables.specs.Cells.{cell_at, cell_number};
ghost use Rattle.names.specs.Names.{number_of};
ghost use Rattle.immediate_tables.specs.Modimm.{modimm};

use tables::BLANK;

const MODIMM_NAMES: [u16; 32] = [
    261, // op=0 cmode=0000
    262, // op=0 cmode=0001
    261, // op=0 cmode=0010
    262, // op=0 cmode=0011
    261, // op=0 cmode=0100
    262, // op=0 cmode=0101
    261, // op=0 cmode=0110
    262, // op=0 cmode=0111
    263, // op=0 cmode=1000
    264, // op=0 cmode=1001
    263, // op=0 cmode=1010
    264, // op=0 cmode=1011
    261, // op=0 cmode=1100
    261, // op=0 cmode=1101
    265, // op=0 cmode=1110
    266, // op=0 cmode=1111
    267, // op=1 cmode=0000
    268, // op=1 cmode=0001
    267, // op=1 cmode=0010
    268, // op=1 cmode=0011
    267, // op=1 cmode=0100
    268, // op=1 cmode=0101
    267, // op=1 cmode=0110
    268, // op=1 cmode=0111
    269, // op=1 cmode=1000
    270, // op=1 cmode=1001
    269, // op=1 cmode=1010
    270, // op=1 cmode=1011
    267, // op=1 cmode=1100
    267, // op=1 cmode=1101
    271, // op=1 cmode=1110
    BLANK, // op=1 cmode=1111
];

// The mnemonic in the cell op:cmode.
pub fn cell(k: u8) -> Option<u16>
    ensures number { cell_number result ≡ number_of (cell_at modimm (k / 16) (k % 16)) }
    ensures named { IfSome result (λ m. m < 346) }
{
    tables::cell_in(&MODIMM_NAMES, k)
}
