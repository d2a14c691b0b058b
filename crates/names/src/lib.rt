// The mnemonics: their numbers, their spellings, and which are pairwise.
#![tactic(auto)]

ghost use Rattle.std.specs.Prelude.{◌≡◌};
ghost use Rattle.laws.specs.Choice.{both};
ghost use Rattle.names.specs.Names.{name_of, pairwise};
ghost use Rattle.names.specs.Own.{NameTable};

// How many there are: their numbers are the ones below.
pub const COUNT: u16 = 346;

// vorr, and what it is called where its sources are equal.
pub const VORR: u16 = 12;

pub const VMOV: u16 = 345;

// Twelve bytes for each mnemonic, four mnemonics to a line: its spelling, filled up with spaces.
const NAMES: [u8; 4152] = *b"\
vhadd.s8    vhadd.s16   vhadd.s32   vqadd.s8    \
vqadd.s16   vqadd.s32   vqadd.s64   vrhadd.s8   \
vrhadd.s16  vrhadd.s32  vand        vbic        \
vorr        vorn        vhsub.s8    vhsub.s16   \
vhsub.s32   vqsub.s8    vqsub.s16   vqsub.s32   \
vqsub.s64   vcgt.s8     vcgt.s16    vcgt.s32    \
vcge.s8     vcge.s16    vcge.s32    vshl.s8     \
vshl.s16    vshl.s32    vshl.s64    vqshl.s8    \
vqshl.s16   vqshl.s32   vqshl.s64   vrshl.s8    \
vrshl.s16   vrshl.s32   vrshl.s64   vqrshl.s8   \
vqrshl.s16  vqrshl.s32  vqrshl.s64  vmax.s8     \
vmax.s16    vmax.s32    vmin.s8     vmin.s16    \
vmin.s32    vabd.s8     vabd.s16    vabd.s32    \
vaba.s8     vaba.s16    vaba.s32    vadd.i8     \
vadd.i16    vadd.i32    vadd.i64    vtst.8      \
vtst.16     vtst.32     vmla.i8     vmla.i16    \
vmla.i32    vmul.i8     vmul.i16    vmul.i32    \
vpmax.s8    vpmax.s16   vpmax.s32   vpmin.s8    \
vpmin.s16   vpmin.s32   vqdmulh.s16 vqdmulh.s32 \
vpadd.i8    vpadd.i16   vpadd.i32   vfma.f32    \
vfms.f32    vadd.f32    vsub.f32    vmla.f32    \
vmls.f32    vceq.f32    vmax.f32    vmin.f32    \
vrecps.f32  vrsqrts.f32 vhadd.u8    vhadd.u16   \
vhadd.u32   vqadd.u8    vqadd.u16   vqadd.u32   \
vqadd.u64   vrhadd.u8   vrhadd.u16  vrhadd.u32  \
veor        vbsl        vbit        vbif        \
vhsub.u8    vhsub.u16   vhsub.u32   vqsub.u8    \
vqsub.u16   vqsub.u32   vqsub.u64   vcgt.u8     \
vcgt.u16    vcgt.u32    vcge.u8     vcge.u16    \
vcge.u32    vshl.u8     vshl.u16    vshl.u32    \
vshl.u64    vqshl.u8    vqshl.u16   vqshl.u32   \
vqshl.u64   vrshl.u8    vrshl.u16   vrshl.u32   \
vrshl.u64   vqrshl.u8   vqrshl.u16  vqrshl.u32  \
vqrshl.u64  vmax.u8     vmax.u16    vmax.u32    \
vmin.u8     vmin.u16    vmin.u32    vabd.u8     \
vabd.u16    vabd.u32    vaba.u8     vaba.u16    \
vaba.u32    vsub.i8     vsub.i16    vsub.i32    \
vsub.i64    vceq.i8     vceq.i16    vceq.i32    \
vmls.i8     vmls.i16    vmls.i32    vmul.p8     \
vpmax.u8    vpmax.u16   vpmax.u32   vpmin.u8    \
vpmin.u16   vpmin.u32   vqrdmulh.s16vqrdmulh.s32\
vpadd.f32   vabd.f32    vmul.f32    vcge.f32    \
vcgt.f32    vacge.f32   vacgt.f32   vpmax.f32   \
vpmin.f32   vshr.s8     vshr.s16    vshr.s32    \
vshr.s64    vsra.s8     vsra.s16    vsra.s32    \
vsra.s64    vrshr.s8    vrshr.s16   vrshr.s32   \
vrshr.s64   vrsra.s8    vrsra.s16   vrsra.s32   \
vrsra.s64   vshl.i8     vshl.i16    vshl.i32    \
vshl.i64    vshrn.i16   vshrn.i32   vshrn.i64   \
vrshrn.i16  vrshrn.i32  vrshrn.i64  vqshrn.s16  \
vqshrn.s32  vqshrn.s64  vqrshrn.s16 vqrshrn.s32 \
vqrshrn.s64 vshll.s8    vshll.s16   vshll.s32   \
vcvt.f32.s32vcvt.s32.f32vshr.u8     vshr.u16    \
vshr.u32    vshr.u64    vsra.u8     vsra.u16    \
vsra.u32    vsra.u64    vrshr.u8    vrshr.u16   \
vrshr.u32   vrshr.u64   vrsra.u8    vrsra.u16   \
vrsra.u32   vrsra.u64   vsri.8      vsri.16     \
vsri.32     vsri.64     vsli.8      vsli.16     \
vsli.32     vsli.64     vqshlu.s8   vqshlu.s16  \
vqshlu.s32  vqshlu.s64  vqshrun.s16 vqshrun.s32 \
vqshrun.s64 vqrshrun.s16vqrshrun.s32vqrshrun.s64\
vqshrn.u16  vqshrn.u32  vqshrn.u64  vqrshrn.u16 \
vqrshrn.u32 vqrshrn.u64 vshll.u8    vshll.u16   \
vshll.u32   vcvt.f32.u32vcvt.u32.f32vmovl.s8    \
vmovl.s16   vmovl.s32   vmovl.u8    vmovl.u16   \
vmovl.u32   vmov.i32    vorr.i32    vmov.i16    \
vorr.i16    vmov.i8     vmov.f32    vmvn.i32    \
vbic.i32    vmvn.i16    vbic.i16    vmov.i64    \
vaddl.s8    vaddl.s16   vaddl.s32   vaddw.s8    \
vaddw.s16   vaddw.s32   vsubl.s8    vsubl.s16   \
vsubl.s32   vsubw.s8    vsubw.s16   vsubw.s32   \
vaddhn.i16  vaddhn.i32  vaddhn.i64  vabal.s8    \
vabal.s16   vabal.s32   vsubhn.i16  vsubhn.i32  \
vsubhn.i64  vabdl.s8    vabdl.s16   vabdl.s32   \
vmlal.s8    vmlal.s16   vmlal.s32   vqdmlal.s16 \
vqdmlal.s32 vmlsl.s8    vmlsl.s16   vmlsl.s32   \
vqdmlsl.s16 vqdmlsl.s32 vmull.s8    vmull.s16   \
vmull.s32   vqdmull.s16 vqdmull.s32 vmull.p8    \
vaddl.u8    vaddl.u16   vaddl.u32   vaddw.u8    \
vaddw.u16   vaddw.u32   vsubl.u8    vsubl.u16   \
vsubl.u32   vsubw.u8    vsubw.u16   vsubw.u32   \
vraddhn.i16 vraddhn.i32 vraddhn.i64 vabal.u8    \
vabal.u16   vabal.u32   vrsubhn.i16 vrsubhn.i32 \
vrsubhn.i64 vabdl.u8    vabdl.u16   vabdl.u32   \
vmlal.u8    vmlal.u16   vmlal.u32   vmlsl.u8    \
vmlsl.u16   vmlsl.u32   vmull.u8    vmull.u16   \
vmull.u32   vmov        ";

// All spellings, for a caller that reads many.
pub fn table() -> [u8; 4152]
    ensures { NameTable result }
{
    NAMES
}

// Bit m % 64 of word m / 64 tells whether mnemonic m is pairwise.
const PAIRWISE: [u64; 6] = [0, 0x73f0, 0x1813_f000_0000, 0, 0, 0];

// Whether mnemonic m is pairwise: its spelling begins with vp.
#[tactic(auto, using(crate::proofs::Spellings::pairwise_bits, crate::proofs::Spellings::no_pairwise))]
pub fn is_pairwise(m: u16) -> bool
    ensures { result ≡ pairwise (name_of m) }
{
    if COUNT <= m {
        return false;
    }
    let word = (m / 64) as usize;
    (PAIRWISE[word] >> (m % 64)) % 2 == 1
}

// Whether it is so in quad form, which no pairwise mnemonic has.
pub fn is_pairwise_quad(quad: bool, m: u16) -> bool
    ensures { result ≡ both quad (pairwise (name_of m)) }
{
    quad && is_pairwise(m)
}
