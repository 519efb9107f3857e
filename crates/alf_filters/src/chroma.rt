// The chroma filters.
ghost use Rattle.std.specs.Prelude.{◌≡◌, ◌≤◌};
ghost use Rattle.bitstream.specs.Outcome.{numbered};
ghost use Rattle.aps.specs.Writing.{whole_alf};
ghost use Rattle.alf_filters.specs.Answers.{chroma_filters};
ghost use Rattle.alf_filters.specs.Filters.{chroma_rows};
ghost use Rattle.alf_filters.specs.Inner.{ChromaFits};

use crate::entries::{put_clips, put_coefficients};
use crate::judge::{is_depth, judge};
use aps::alf::{VvcAlfChroma, VvcAlfData};
use aps::payload::{ApsOf, Payload};
use bitstream::Refusal;

// AlfCoeffC and AlfClipC: how many alternatives were sent, and 8 rows of 6, of which those past them are 0.
#[derive(Clone, Copy)]
#[repr(C)]
pub struct ChromaFilters {
    pub count: u32,
    pub coefficients: [i32; 48],
    pub clips: [u32; 48],
}

// The alternatives that were sent.
fn chroma_rows(chroma: &VvcAlfChroma, depth: u32) -> ChromaFilters
    requires { ChromaFits chroma.now × (8 ≤ depth) × (depth ≤ 12) }
    ensures { result ≡ chroma_rows depth chroma.now }
{
    let count = chroma.alf_chroma_num_alt_filters_minus1 + 1;
    let n = 6 * count as usize;
    let mut coefficients = [0; 48];
    let mut clips = [0; 48];
    put_coefficients(
        &chroma.coeff_abs[..n],
        &chroma.coeff_sign[..n],
        &mut coefficients[..n],
    );
    put_clips(
        depth,
        chroma.alf_chroma_clip_flag,
        &chroma.clip_idx[..n],
        &mut clips[..n],
    );
    ChromaFilters {
        count,
        coefficients,
        clips,
    }
}

// The chroma alternatives of a set at a bit depth. 2; 7: a depth outside 8 to 12; 8.
pub fn chroma_filters(set: &ApsOf<VvcAlfData>, depth: u32) -> Result<ChromaFilters, Refusal>
    ensures { numbered result ≡ chroma_filters (whole_alf set.now) depth }
{
    let alf = &set.payload;
    judge(
        set,
        is_depth(depth),
        Refusal::DepthOutOfRange,
        alf.alf_chroma_filter_signal_flag,
    )?;
    Ok(chroma_rows(&alf.chroma, depth))
}
