// An H.266 set with the factors and DCs of H.265's lists.
ghost use Rattle.std.specs.Prelude.{◌≡◌, cond, ◌+◌, ◌*◌, ◌-◌, ◌≤◌, ◌<◌, true, false, suc, ltb, pos, length, set, IfErr, OnOk};
ghost use Rattle.std.proofs.lemmas.List.Edits.{sets};
ghost use Rattle.bitstream.specs.Outcome.{numbered};
ghost use Rattle.bitstream.specs.declared.Refusal.TheVariants.{ZeroElement};
ghost use Rattle.aps.specs.ScalingSyntax.{tabulate};
ghost use Rattle.hevc_scaling.specs.Inner.{InRanges, converted_lists, done_below};
ghost use Rattle.hevc_scaling.specs.Converted.{is_named, sum, has_zero, vvc_scaling_set};

use crate::resolved_list::resolved;
use crate::scaling_list::{HevcScalingListData, ListId};
use crate::scaling_list_data::parse_scaling_list_data;
use crate::scaling_list_write::delta_coef;
use aps::aps::{ApsHead, ApsKind};
use aps::payload::ApsOf;
use aps::scaling_list::{ListId as VvcListId, VvcScalingListData};
use bitstream::Refusal;

// The id takes a list of H.265.
#[tactic(auto, unfolding(crate::specs::Converted::is_named))]
fn is_named(id: usize) -> bool
    ensures { result ≡ is_named id }
{
    1 < id && (id < 21 || id == 23)
}

// What the first step of an id starts at.
fn first_of(id: usize, dc: u8) -> u8
    ensures { result ≡ cond (ltb 13 id) dc 8 }
{
    if 13 < id { dc } else { 8 }
}

// The sums after each coefficient, zeros after them. They start at what is sent of the DC.
fn sums(coefs: &[u8], first: u8) -> [i32; 64]
    requires { length coefs.now ≤ 64 }
    ensures { result ≡ tabulate 0 64 (λ i. cond (ltb i (length coefs.now)) (sum first coefs.now (suc i)) (pos 0)) }
{
    let mut sums = [0; 64];
    let mut next = first;
    let mut sum = delta_coef(8, first);
    for (i, &coef) in coefs.iter().enumerate() {
        sum += delta_coef(next, coef);
        sums[i] = sum;
        next = coef;
    }
    sums
}

// The DC of an id above 13.
fn put_dc(dcs: &mut [i32; 14], id: usize, dc: i32)
    requires { id < 28 }
    ensures { dcs.new ≡ cond (ltb 13 id) (set dcs.old (id - 14) dc) dcs.old }
{
    if 13 < id {
        dcs[id - 14] = dc;
    }
}

// The list of an id.
fn put_row(lists: &mut [i32; 1792], id: usize, row: &[i32; 64])
    requires { id < 28 }
    ensures { lists.new ≡ sets lists.old (64 * id) row.now }
{
    lists[64 * id..64 * id + 64].copy_from_slice(row);
}

// A named id. 13: it has an element of 0
fn put_list(
    set: &mut VvcScalingListData,
    lists: &HevcScalingListData,
    id: usize,
) -> Result<(), Refusal>
    requires { (InRanges lists.now) × (is_named id ≡ true) × (set.old ≡ done_below lists.now id) }
    ensures ok { OnOk result ((has_zero lists.now id ≡ false) × (set.new ≡ done_below lists.now (id + 1))) }
    ensures err { IfErr result (λ why. (why ≡ ZeroElement) × (has_zero lists.now id ≡ true)) }
{
    let list_id = ListId { number: id - 2 };
    let list = resolved(lists, list_id);
    let n = VvcListId { number: id }.matrix_entries();
    let coefs = &list.coefs[..n];
    if coefs.contains(&0) {
        return Err(Refusal::ZeroElement);
    }
    let first = first_of(id, list.dc);
    set.copy_mode_flag[id] = false;
    put_dc(&mut set.dc_coef, id, delta_coef(8, first));
    put_row(&mut set.scaling_list, id, &sums(coefs, first));
    Ok(())
}

// The lists of all ids. 13: a named one has an element of 0
fn vvc_lists(lists: &HevcScalingListData) -> Result<VvcScalingListData, Refusal>
    requires { InRanges lists.now }
    ensures { numbered result ≡ converted_lists lists.now }
{
    let mut set = VvcScalingListData {
        copy_mode_flag: [true; 28],
        pred_mode_flag: [false; 28],
        pred_id_delta: [0; 28],
        dc_coef: [0; 14],
        scaling_list: [0; 1792],
    };
    for id in 0..28 {
        if is_named(id) {
            put_list(&mut set, lists, id)?;
        }
    }
    Ok(set)
}

// The set out of the lists' bytes. 1, 2, 4: as in reading the lists; 13: a resolved element of a named id is 0
pub fn vvc_scaling_set(bytes: &[u8]) -> Result<ApsOf<VvcScalingListData>, Refusal>
    ensures { numbered result ≡ vvc_scaling_set bytes.now }
{
    let lists = parse_scaling_list_data(bytes)?;
    let payload = vvc_lists(&lists.value)?;
    Ok(ApsOf {
        head: ApsHead {
            kind: ApsKind::Scaling,
            aps_adaptation_parameter_set_id: 0,
            aps_chroma_present_flag: true,
            aps_extension_flag: false,
        },
        payload,
    })
}
