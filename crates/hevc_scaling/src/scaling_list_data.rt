// scaling_list_data(), H.265 7.3.4, read.
ghost use Rattle.std.specs.Prelude.{◌≡◌, ◌*◌, ◌/◌, ◌≤◌, ◌<◌, nat_abs, length, IfOk};
ghost use Rattle.bitstream.specs.Outcome.{map_outcome};
ghost use Rattle.aps.specs.Reading.{outcome_reading};
ghost use Rattle.hevc_scaling.specs.Inner.{explicit_list, in_range, list_of, read_into};
ghost use Rattle.hevc_scaling.specs.ListData.{filled, parse_scaling_list_data};
ghost use Rattle.hevc_scaling.specs.ListSyntax.{wrapped, coefficient, coefficients, dc_coef, dc_at, explicit, list_at};

use crate::list_reader::{read_flag, read_se_in, read_ue_to};
use crate::scaling_list::{HevcScalingListData, ListId, ScalingList};
use aps::aps::Reading;
use bitstream::{Input, Refusal};

// ( nextCoef + scaling_list_delta_coef + 256 ) % 256.
fn add_delta(next_coef: u8, delta_coef: i32) -> u8
    requires { nat_abs delta_coef ≤ 128 }
    ensures { result ≡ wrapped next_coef delta_coef }
{
    let size = delta_coef.unsigned_abs();
    let next = u32::from(next_coef);
    if delta_coef < 0 {
        ((next + 256 - size) % 256) as u8
    } else {
        ((next + size + 256) % 256) as u8
    }
}

// A coefficient after nextCoef.
fn read_coef(input: Input, at: usize, next_coef: u8) -> Result<Reading<u8>, Refusal>
    requires { at ≤ length input.bytes.now * 8 }
    ensures field { outcome_reading result ≡ (coefficient next_coef).read input.entry.bytes.now at }
    ensures inside { IfOk result (λ r. r.end ≤ length input.entry.bytes.now * 8) }
{
    let delta = read_se_in(input, at, -128, 127)?;
    Ok(Reading {
        value: add_delta(next_coef, delta.value),
        end: delta.end,
    })
}

// The coefficients of a list after nextCoef.
fn read_coefs(input: Input, at: usize, next_coef: u8, coefs: &mut [u8]) -> Result<usize, Refusal>
    requires { at ≤ length input.bytes.now * 8 }
    ensures field { read_into result coefs.new ≡ (coefficients (length coefs.old) next_coef).read input.entry.bytes.now at }
    ensures inside { IfOk result (λ q. q ≤ length input.entry.bytes.now * 8) }
{
    let mut next = next_coef;
    let mut end = at;
    for coef in coefs.iter_mut() {
        let read = read_coef(input, end, next)?;
        next = read.value;
        end = read.end;
        *coef = next;
    }
    Ok(end)
}

// scaling_list_dc_coef_minus8, for sizeId 2 and 3.
fn read_dc(input: Input, at: usize, id: ListId) -> Result<Reading<i32>, Refusal>
    requires { at ≤ length input.bytes.now * 8 }
    ensures field { outcome_reading result ≡ (dc_at (id.number / 6)).read input.entry.bytes.now at }
    ensures inside { IfOk result (λ r. r.end ≤ length input.entry.bytes.now * 8) }
{
    if id.size_id() < 2 {
        return Ok(Reading { value: 0, end: at });
    }
    read_se_in(input, at, -7, 247)
}

// scaling_list_dc_coef_minus8 + 8, at which nextCoef begins.
pub(crate) fn first_coef(dc: i32) -> u8
    requires { in_range dc }
    ensures { result ≡ dc_coef dc }
{
    (dc + 8) as u8
}

// n coefficients after nextCoef, zeros after them.
fn read_row(input: Input, at: usize, next_coef: u8, n: usize) -> Result<Reading<[u8; 64]>, Refusal>
    requires { (at ≤ length input.bytes.now * 8) × (n ≤ 64) }
    ensures field { outcome_reading result ≡ map_outcome (filled 64) ((coefficients n next_coef).read input.entry.bytes.now at) }
    ensures inside { IfOk result (λ r. r.end ≤ length input.entry.bytes.now * 8) }
{
    let mut value = [0; 64];
    let end = read_coefs(input, at, next_coef, &mut value[..n])?;
    Ok(Reading { value, end })
}

// The DC and the coefficients of a list that is not predicted.
fn read_explicit(input: Input, at: usize, id: ListId) -> Result<Reading<ScalingList>, Refusal>
    requires { at ≤ length input.bytes.now * 8 }
    ensures field { outcome_reading result ≡ map_outcome explicit_list ((explicit (id.number / 6)).read input.entry.bytes.now at) }
    ensures inside { IfOk result (λ r. r.end ≤ length input.entry.bytes.now * 8) }
{
    let dc = read_dc(input, at, id)?;
    let row = read_row(input, dc.end, first_coef(dc.value), id.coef_num())?;
    let coefs = row.value;
    Ok(Reading {
        value: ScalingList {
            pred_mode_flag: true,
            pred_matrix_id_delta: 0,
            dc_coef_minus8: dc.value,
            coefs,
        },
        end: row.end,
    })
}

// One list; of one that is not coded nothing is sent.
fn read_list(input: Input, at: usize, id: ListId) -> Result<Reading<ScalingList>, Refusal>
    requires { at ≤ length input.bytes.now * 8 }
    ensures field { outcome_reading result ≡ map_outcome list_of ((list_at id.number).read input.entry.bytes.now at) }
    ensures inside { IfOk result (λ r. r.end ≤ length input.entry.bytes.now * 8) }
{
    let mut list = ScalingList {
        pred_mode_flag: false,
        pred_matrix_id_delta: 0,
        dc_coef_minus8: 0,
        coefs: [0; 64],
    };
    if !id.is_coded() {
        return Ok(Reading {
            value: list,
            end: at,
        });
    }
    let pred_mode = read_flag(input, at)?;
    if pred_mode.value {
        return read_explicit(input, pred_mode.end, id);
    }
    let delta = read_ue_to(input, pred_mode.end, id.max_delta() as u32)?;
    list.pred_matrix_id_delta = delta.value;
    Ok(Reading {
        value: list,
        end: delta.end,
    })
}

// scaling_list_data() from the first bit on; what follows the lists is not read.
pub fn parse_scaling_list_data(bytes: &[u8]) -> Result<Reading<HevcScalingListData>, Refusal>
    ensures { outcome_reading result ≡ parse_scaling_list_data bytes.now }
{
    let input = Input::new(bytes)?;
    let mut value = HevcScalingListData::default();
    let mut end = 0;
    for number in 0..24 {
        let id = ListId { number };
        let list = read_list(input, end, id)?;
        value.store(id, &list.value);
        end = list.end;
    }
    Ok(Reading { value, end })
}
