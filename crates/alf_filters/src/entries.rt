// Coefficients and clips of a row, or of rows that stand one after another.
ghost use Rattle.std.specs.Prelude.{◌≡◌, ℕ, ◌≤◌, ◌<◌, pos, length, get_or};
ghost use Rattle.alf_filters.specs.Entries.{signed, power, clip, coefficient_at, power_at, clip_at};
ghost use Rattle.alf_filters.specs.Inner.{AtMost};

// A magnitude with its sign.
fn signed(magnitude: u32, negative: bool) -> i32
    requires { magnitude ≤ 128 }
    ensures { result ≡ signed magnitude negative }
{
    let value = magnitude as i32;
    if negative { -value } else { value }
}

// The value of a mapped magnitude with its sign.
fn power(mapped: u8, negative: bool) -> i32
    requires { mapped ≤ 7 }
    ensures { result ≡ power mapped negative }
{
    if mapped == 0 {
        return 0;
    }
    signed(1 << (mapped - 1), negative)
}

// The clip of an index.
fn clip(depth: u32, index: u8) -> u32
    requires { (8 ≤ depth) × (depth ≤ 12) × (index ≤ 3) }
    ensures { result ≡ clip depth index }
{
    match index {
        0 => 1 << depth,
        1 => 1 << (depth - 3),
        2 => 1 << (depth - 5),
        _ => 1 << (depth - 7),
    }
}

// Signed coefficients of a luma or chroma filter.
pub(crate) fn put_coefficients(magnitudes: &[u32], signs: &[bool], out: &mut [i32])
    requires { (length magnitudes.now ≡ length out.old) × (length signs.now ≡ length out.old) × AtMost 128 magnitudes.now }
    ensures { (k : ℕ) → k < length out.old → get_or out.new k (pos 0) ≡ coefficient_at magnitudes.now signs.now k }
{
    for (k, entry) in out.iter_mut().enumerate() {
        *entry = signed(magnitudes[k], signs[k]);
    }
}

// Signed coefficients of a cross-component filter.
pub(crate) fn put_powers(mapped: &[u8], signs: &[bool], out: &mut [i32])
    requires { (length mapped.now ≡ length out.old) × (length signs.now ≡ length out.old) × AtMost 7 mapped.now }
    ensures { (k : ℕ) → k < length out.old → get_or out.new k (pos 0) ≡ power_at mapped.now signs.now k }
{
    for (k, entry) in out.iter_mut().enumerate() {
        *entry = power(mapped[k], signs[k]);
    }
}

// Clips of a luma or chroma filter; without the clip flag every index is 0.
pub(crate) fn put_clips(depth: u32, clip_flag: bool, indexes: &[u8], out: &mut [u32])
    requires { (8 ≤ depth) × (depth ≤ 12) × (length indexes.now ≡ length out.old) × AtMost 3 indexes.now }
    ensures { (k : ℕ) → k < length out.old → get_or out.new k 0 ≡ clip_at depth clip_flag indexes.now k }
{
    for (k, entry) in out.iter_mut().enumerate() {
        let index = if clip_flag { indexes[k] } else { 0 };
        *entry = clip(depth, index);
    }
}
