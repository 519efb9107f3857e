// The fields that the filters of alf_data() are made of.
ghost use Rattle.std.specs.Prelude.{◌≡◌, false, cond, ◌+◌, ◌*◌, ◌%◌, ◌≤◌, ◌<◌, ltb, length, replicate};
ghost use Rattle.std.proofs.lemmas.List.Edits.{sets};
ghost use Rattle.aps.specs.Codec.{u, when, each};
ghost use Rattle.aps.specs.Elements.{no_number, no_signed, apart};
ghost use Rattle.aps.specs.AlfSyntax.{ceil_log2, coefficient};
ghost use Rattle.aps.specs.Reads.{Reads, filled};
ghost use Rattle.aps.specs.Inner.{six_of};

use crate::reader::Reader;
use bitstream::Refusal;

// Ceil( Log2( x ) ).
pub(crate) fn ceil_log2(x: u32) -> u32
    ensures { (result ≡ ceil_log2 x) × (result ≤ 32) }
{
    if x <= 1 {
        return 0;
    }
    32 - u32::leading_zeros(x - 1)
}

// The first n coefficients of two arrays of zeros, which are the Rust's fields.
pub(crate) fn read_coefficients(
    reader: &mut Reader,
    n: usize,
    abs: &mut [u32],
    sign: &mut [bool],
) -> Result<(), Refusal>
    requires { (n ≤ length abs.old) × (abs.old ≡ replicate (length abs.old) 0) × (sign.old ≡ replicate (length abs.old) false) }
    ensures { Reads (apart (each (length abs.old) (λ i. when (ltb i n) no_signed coefficient)))
        (filled result (abs.new, sign.new) reader.new.at) reader.old reader.new }
{
    let mut held = *reader;
    // By index: tried as iter_mut of both zipped, after which a proof knows their lengths and not what was written.
    for i in 0..n {
        let (a, s) = held.coefficient()?;
        abs[i] = a;
        sign[i] = s;
    }
    *reader = held;
    Ok(())
}

// Six clips out of twelve bits.
fn six_clips(w: u32) -> [u8; 6]
    requires { w < 4096 }
    ensures { result ≡ six_of w }
{
    [
        (w >> 10) as u8,
        ((w >> 8) % 4) as u8,
        ((w >> 6) % 4) as u8,
        ((w >> 4) % 4) as u8,
        ((w >> 2) % 4) as u8,
        (w % 4) as u8,
    ]
}

// The clips of the first rows of an array of zeros, six to a row.
pub(crate) fn read_clips(reader: &mut Reader, rows: usize, clips: &mut [u8]) -> Result<(), Refusal>
    requires { (6 * rows ≤ length clips.old) × (rows ≤ 50) × (clips.old ≡ replicate (length clips.old) 0) }
    ensures { Reads (each (length clips.old) (λ i. when (ltb i (6 * rows)) no_number (u 2)))
        (filled result clips.new reader.new.at) reader.old reader.new }
{
    let mut held = *reader;
    // By index: tried as chunks_exact_mut and as_chunks_mut, after which a proof knows the length and not what was written.
    for row in 0..rows {
        let six = six_clips(held.u(12, 12)?);
        clips[6 * row..6 * row + 6].copy_from_slice(&six);
    }
    *reader = held;
    Ok(())
}

// How many clips, or rows of them, are sent.
pub(crate) fn clips_sent(clip: bool, n: usize) -> usize
    ensures { (result ≡ cond clip n 0) × (result ≤ n) }
{
    if clip { n } else { 0 }
}
