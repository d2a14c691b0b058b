// The words that every other crate speaks: operands, records, widths, signed numbers, and the causes of refusal.
#![tactic(auto)]

ghost use Rattle.std.specs.Prelude.{◌≡◌};
ghost use Rattle.insn.specs.Record.{place_at};
ghost use Rattle.insn.specs.Refusals.{number};

pub mod signed;
pub mod widths;

// One place of a record: none, a register by its number, a whole number, a float, or an operand of another kind.
#[derive(Clone, Copy, PartialEq)]
pub enum Operand {
    Absent,
    D(u8),
    Q(u8),
    S(u8),
    Imm(i64),
    Float(f64),
    Other,
}

// The manual's name of the encoding.
#[derive(Clone, Copy, PartialEq, Eq)]
pub enum Mark {
    T1,
    T2,
}

// A record: an instruction as it was read, or as it is to be written. Places past the count are absent, whatever they hold.
#[derive(Clone, Copy, PartialEq)]
pub struct Insn {
    pub mnemonic: u16,
    pub mark: Mark,
    pub address: u32,
    pub count: u8,
    pub first: Operand,
    pub second: Operand,
    pub third: Operand,
}

// How many bits an element has.
#[derive(Clone, Copy, PartialEq, Eq)]
pub enum Width {
    B8,
    B16,
    B32,
    B64,
}

// How an element is read: as a number from 0, or in two's complement.
#[derive(Clone, Copy, PartialEq, Eq)]
pub enum Sign {
    Unsigned,
    Signed,
}

// Which edition of the manual a call goes by: ARM DDI 0406B or 0406C.
#[derive(Clone, Copy, PartialEq, Eq)]
pub enum Edition {
    B,
    C,
}

// Why an input is refused; the number of each is what `From` makes of it.
#[derive(Clone, Copy, PartialEq, Eq)]
pub enum Refusal {
    NoFamily,
    FixedBits,
    BlankCell,
    ZeroImmediate,
    PairwiseQuad,
    OddQuad,
    UnknownMnemonic,
    WrongForm,
    NoSuchValue,
    NoMeaning,
    WrongExtent,
    SheetLength,
    StepRule,
    ShortOutput,
    BudgetSpent,
    UnfilledRow,
}

// The operand at place k, counted from 0.
#[tactic(auto, unfolding(crate::specs::Record::place_at))]
pub fn place(i: Insn, k: u8) -> Operand
    ensures { result ≡ place_at i k }
{
    match k {
        _ if i.count <= k => Operand::Absent,
        0 => i.first,
        1 => i.second,
        2 => i.third,
        _ => Operand::Absent,
    }
}

// The number by which a refusal is known.
impl From<Refusal> for u8 {
    ghost from_gives = { λ f n. n ≡ number f };

    fn from(f: Refusal) -> u8 {
        match f {
            Refusal::NoFamily => 1,
            Refusal::FixedBits => 2,
            Refusal::BlankCell => 3,
            Refusal::ZeroImmediate => 4,
            Refusal::PairwiseQuad => 5,
            Refusal::OddQuad => 6,
            Refusal::UnknownMnemonic => 7,
            Refusal::WrongForm => 8,
            Refusal::NoSuchValue => 9,
            Refusal::NoMeaning => 10,
            Refusal::WrongExtent => 11,
            Refusal::SheetLength => 12,
            Refusal::StepRule => 13,
            Refusal::ShortOutput => 14,
            Refusal::BudgetSpent => 15,
            Refusal::UnfilledRow => 16,
        }
    }
}
