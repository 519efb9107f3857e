// The factors and DCs of a set, id after id, each from an earlier one.
ghost use Rattle.std.specs.Prelude.{◌≡◌, ◌+◌, ◌*◌, ◌≤◌, ◌<◌, eqb, length, get_or};
ghost use Rattle.aps.specs.ScalingSyntax.{entries, tabulate};
ghost use Rattle.scaling_factors.specs.Factors.{byte_of, dc, any_below};
ghost use Rattle.scaling_factors.specs.Answers.{flat};
ghost use Rattle.scaling_factors.specs.Inner.{DeltasFit, Built, DcsBuilt, Laid, Added, reach, forecast, earlier_dc, dc_forecast};

use crate::source::{Prediction, copied, predicted_from};
use aps::scaling_list::{ListId, VvcScalingListData};

// A list entry or DC modulo 256.
fn byte_of(z: i32) -> u8
    ensures { result ≡ byte_of z }
{
    z.rem_euclid(256) as u8
}

// The predictions of an id's factors, put in their places.
fn predict(factors: &mut [u8; 1792], prediction: Prediction, id: ListId)
    requires { reach prediction ≤ id.number }
    ensures { Laid (64 * id.number) (entries id.number) (λ i. forecast prediction factors.old (64 * id.number + i)) factors.old factors.new }
{
    let start = 64 * id.number;
    let end = start + id.matrix_entries();
    match prediction {
        Prediction::Value(v) => factors[start..end].fill(v),
        Prediction::Earlier(delta) => {
            let back = 64 * delta;
            factors.copy_within(start - back..end - back, start);
        }
    }
}

// Entries added to predictions, modulo 256.
fn add_entries(factors: &mut [u8], entries: &[i32])
    requires { length factors.old ≡ length entries.now }
    ensures { Added entries.now (length factors.old) factors.old factors.new }
{
    for (i, factor) in factors.iter_mut().enumerate() {
        *factor = factor.wrapping_add(byte_of(entries[i]));
    }
}

// The factors of an id; of a copy no entries count.
fn fill_list(factors: &mut [u8; 1792], d: &VvcScalingListData, chroma: bool, id: ListId)
    requires { (DeltasFit chroma d.now) × (Built chroma d.now id.number factors.old) }
    ensures { Built chroma d.now (id.number + 1) factors.new }
{
    predict(factors, predicted_from(d, chroma, id), id);
    if !copied(d, chroma, id) {
        let start = 64 * id.number;
        let end = start + id.matrix_entries();
        add_entries(&mut factors[start..end], &d.scaling_list[start..end]);
    }
}

// The factors of all ids, those of id at 64 * id.
pub(crate) fn lists(d: &VvcScalingListData, chroma: bool) -> [u8; 1792]
    requires { DeltasFit chroma d.now }
    ensures { result ≡ tabulate 0 1792 (flat chroma d.now) }
{
    let mut factors = [0; 1792];
    for number in 0..28 {
        fill_list(&mut factors, d, chroma, ListId { number });
    }
    factors
}

// The DC of an id; of one without a DC its first factor.
fn earlier_dc(factors: &[u8; 1792], dcs: &[u8; 14], number: usize) -> u8
    requires { number < 28 }
    ensures { result ≡ earlier_dc factors.now dcs.now number }
{
    if 13 < number {
        return dcs[number - 14];
    }
    factors[64 * number]
}

// What the DC of an id is predicted from.
fn predicted_dc(factors: &[u8; 1792], dcs: &[u8; 14], prediction: Prediction, id: ListId) -> u8
    requires { reach prediction ≤ id.number }
    ensures { result ≡ dc_forecast prediction factors.now dcs.now id.number }
{
    match prediction {
        Prediction::Value(v) => v,
        Prediction::Earlier(delta) => earlier_dc(factors, dcs, id.number - delta),
    }
}

// The DC of an id above 13, from the factors and the DCs before it.
fn dc(d: &VvcScalingListData, chroma: bool, factors: &[u8; 1792], dcs: &[u8; 14], id: ListId) -> u8
    requires { (DeltasFit chroma d.now) × (13 < id.number) × (factors.now ≡ tabulate 0 1792 (flat chroma d.now)) × (DcsBuilt chroma d.now id.number dcs.now) }
    ensures { result ≡ dc chroma d.now id.number }
{
    let predicted = predicted_dc(factors, dcs, predicted_from(d, chroma, id), id);
    if copied(d, chroma, id) {
        return predicted;
    }
    predicted.wrapping_add(byte_of(d.dc_coef[id.number - 14]))
}

// The DCs of ids 14 to 27.
pub(crate) fn dcs(d: &VvcScalingListData, chroma: bool, factors: &[u8; 1792]) -> [u8; 14]
    requires { (DeltasFit chroma d.now) × (factors.now ≡ tabulate 0 1792 (flat chroma d.now)) }
    ensures { result ≡ tabulate 14 14 (dc chroma d.now) }
{
    let mut dcs = [0; 14];
    for number in 14..28 {
        dcs[number - 14] = dc(d, chroma, factors, &dcs, ListId { number });
    }
    dcs
}

// Some id has a factor of 0.
pub(crate) fn has_zero_factor(factors: &[u8; 1792]) -> bool
    ensures { result ≡ any_below 28 (λ id. any_below (entries id) (λ i. eqb (get_or factors.now (64 * id + i) 0) 0)) }
{
    for number in 0..28 {
        let id = ListId { number };
        let start = 64 * number;
        if factors[start..start + id.matrix_entries()].contains(&0) {
            return true;
        }
    }
    false
}
