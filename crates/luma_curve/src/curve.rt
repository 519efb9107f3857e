// The tables of the curve.
ghost use Rattle.std.specs.Prelude.{◌≡◌};
ghost use Rattle.aps.specs.Writing.{whole_lmcs};
ghost use Rattle.luma_curve.specs.Answers.{answer};
ghost use Rattle.luma_curve.specs.Curve.{luma_curve};

use crate::bins::judged;
use aps::lmcs::VvcLmcsData;
use aps::payload::ApsOf;
use bitstream::Refusal;

// Of each bin: its codeword, and the forward, inverse and chroma scale, the last two with the exact remainder; the pivots are one more.
#[derive(Clone, Copy)]
#[repr(C)]
pub struct LumaCurve {
    pub codewords: [u32; 16],
    pub pivots: [u32; 17],
    pub forward: [u32; 16],
    pub inverse: [u32; 16],
    pub inverse_rest: [u32; 16],
    pub chroma: [u32; 16],
    pub chroma_rest: [u32; 16],
}

// The curve of a set at a depth: 2; 7; 10; 11.
pub fn luma_curve(set: &ApsOf<VvcLmcsData>, depth: u32) -> Result<LumaCurve, Refusal>
    ensures { answer result ≡ luma_curve (whole_lmcs set.now) depth }
{
    let bins = judged(set, depth)?;
    let o = bins.org_cw;
    let codewords = bins.luma;
    let chroma_codewords = bins.chroma;
    let pivots = bins.pivots;
    let forward = o.forwards(codewords);
    let inverse = o.scales(0, codewords);
    let inverse_rest = o.rests(codewords);
    let chroma = o.scales(2048, chroma_codewords);
    let chroma_rest = o.rests(chroma_codewords);
    Ok(LumaCurve {
        codewords,
        pivots,
        forward,
        inverse,
        inverse_rest,
        chroma,
        chroma_rest,
    })
}
