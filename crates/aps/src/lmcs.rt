// lmcs_data(), H.266 7.3.2.19.
ghost use Rattle.std.specs.Prelude.{◌≡◌, true, false, replicate, IfOk, IfErr};
ghost use Rattle.bitstream.specs.Outcome.{map_outcome};
ghost use Rattle.bitstream.specs.declared.Refusal.TheVariants.{InvalidData};
ghost use Rattle.aps.specs.LmcsSyntax.{in_range, lmcs_head, lmcs_codewords, lmcs};
ghost use Rattle.aps.specs.ApsSyntax.{zero_lmcs};
ghost use Rattle.aps.specs.Reads.{given, filled, Reads};

use crate::reader::Reader;
use bitstream::Refusal;

// Its arrays beside one another, as the Rust's fields are.
#[derive(Clone, Copy)]
pub struct VvcLmcsData {
    pub lmcs_min_bin_idx: u32,
    pub lmcs_delta_max_bin_idx: u32,
    pub lmcs_delta_cw_prec_minus1: u32,
    pub lmcs_delta_abs_cw: [u32; 16],
    pub lmcs_delta_sign_cw_flag: [bool; 16],
    pub lmcs_delta_abs_crs: u8,
    pub lmcs_delta_sign_crs_flag: bool,
}

// Nothing sent. Written out as ALF's parts are.
impl Default for VvcLmcsData {
    ghost is_default = { λ d. d ≡ zero_lmcs };

    fn default() -> Self {
        VvcLmcsData {
            lmcs_min_bin_idx: 0,
            lmcs_delta_max_bin_idx: 0,
            lmcs_delta_cw_prec_minus1: 0,
            lmcs_delta_abs_cw: [0; 16],
            lmcs_delta_sign_cw_flag: [false; 16],
            lmcs_delta_abs_crs: 0,
            lmcs_delta_sign_crs_flag: false,
        }
    }
}

// Min 0..15; delta max 0..15 with 15 - delta max at least min; precision - 1 0..14.
fn in_range(min: u32, max: u32, prec: u32) -> bool
    ensures { result ≡ in_range (min, (max, prec)) }
{
    if 15 < min {
        return false;
    }
    if 15 < max {
        return false;
    }
    if 15 - max < min {
        return false;
    }
    prec <= 14
}

// Which bins have a codeword and how wide it is: the smallest bin, the delta of the largest and the precision - 1, in range.
#[derive(Clone, Copy)]
pub(crate) struct Bins {
    pub(crate) min: u32,
    pub(crate) max: u32,
    pub(crate) prec: u32,
    ghost range: { in_range (min, (max, prec)) ≡ true },
}

impl Bins {
    // 2: they are not in range.
    pub(crate) fn new(min: u32, max: u32, prec: u32) -> Result<Self, Refusal>
        ensures ok { IfOk result (λ bins. (bins.min ≡ min) × (bins.max ≡ max) × (bins.prec ≡ prec)) }
        ensures err { IfErr result (λ why. (why ≡ InvalidData) × (in_range (min, (max, prec)) ≡ false)) }
    {
        if !in_range(min, max, prec) {
            return Err(Refusal::InvalidData);
        }
        Ok(Bins { min, max, prec })
    }
}

// The smallest bin, the delta of the largest one and the precision - 1: all three are read, then judged.
fn read_head(reader: &mut Reader) -> Result<Bins, Refusal>
    ensures { Reads lmcs_head (map_outcome (λ bins. (bins.min, (bins.max, bins.prec))) (given result reader.new.at)) reader.old reader.new }
{
    let min = reader.ue()?;
    let max = reader.ue()?;
    let prec = reader.ue()?;
    Bins::new(min, max, prec)
}

// Bins min to 15 - max, into arrays of zeros. They are lent and no record: so nothing has to say that its other fields stay.
fn read_codewords(
    reader: &mut Reader,
    bins: Bins,
    abs: &mut [u32; 16],
    sign: &mut [bool; 16],
) -> Result<(), Refusal>
    requires { (abs.old ≡ replicate 16 0) × (sign.old ≡ replicate 16 false) }
    ensures { Reads (lmcs_codewords (bins.min, (bins.max, bins.prec))) (filled result (abs.new, sign.new) reader.new.at) reader.old reader.new }
{
    let mut held = *reader;
    // By index: zipped, a proof would not know what was written, as for ALF's coefficients.
    for i in bins.min as usize..16 - bins.max as usize {
        let (magnitude, negative) = held.signed(bins.prec + 1)?;
        abs[i] = magnitude;
        sign[i] = negative;
    }
    *reader = held;
    Ok(())
}

// lmcs_data(), of which the chroma flag is a parameter, into a record of zeros.
pub(crate) fn parse_lmcs_data(
    reader: &mut Reader,
    chroma: bool,
    d: &mut VvcLmcsData,
) -> Result<(), Refusal>
    requires { d.old ≡ zero_lmcs }
    ensures { Reads (lmcs chroma) (filled result d.new reader.new.at) reader.old reader.new }
{
    let bins = read_head(reader)?;
    d.lmcs_min_bin_idx = bins.min;
    d.lmcs_delta_max_bin_idx = bins.max;
    d.lmcs_delta_cw_prec_minus1 = bins.prec;
    read_codewords(
        reader,
        bins,
        &mut d.lmcs_delta_abs_cw,
        &mut d.lmcs_delta_sign_cw_flag,
    )?;
    if !chroma {
        return Ok(());
    }
    let (abs, sign) = reader.signed(3)?;
    d.lmcs_delta_abs_crs = abs as u8;
    d.lmcs_delta_sign_crs_flag = sign;
    Ok(())
}
