// A list and its DC by H.265 7.4.5: predicted ones and the defaults of Tables 7-5 and 7-6 resolved.
ghost use Rattle.std.specs.Prelude.{◌≡◌, ◌+◌, ◌*◌, ◌/◌, ◌%◌, ◌≤◌, replicate};
ghost use Rattle.hevc_scaling.specs.Inner.{InRanges, resolved_list};
ghost use Rattle.hevc_scaling.specs.ListSyntax.{max_delta};
ghost use Rattle.hevc_scaling.specs.ListData.{filled};
ghost use Rattle.hevc_scaling.specs.Resolved.{intra, inter, default_factors, default_list, ref_matrix_id, resolved};

use crate::scaling_list::{HevcScalingListData, ListId};
use crate::scaling_list_data::first_coef;

// Table 7-5, zeros after it.
fn flat() -> [u8; 64]
    ensures { result ≡ filled 64 (replicate 16 16) }
{
    [
        16, 16, 16, 16, 16, 16, 16, 16, 16, 16, 16, 16, 16, 16, 16, 16, 0, 0, 0, 0, 0, 0, 0, 0, 0,
        0, 0, 0, 0, 0, 0, 0, 0, 0, 0, 0, 0, 0, 0, 0, 0, 0, 0, 0, 0, 0, 0, 0, 0, 0, 0, 0, 0, 0, 0,
        0, 0, 0, 0, 0, 0, 0, 0, 0,
    ]
}

// Table 7-6, matrixId 0 to 2.
fn intra() -> [u8; 64]
    ensures { result ≡ intra }
{
    [
        16, 16, 16, 16, 16, 16, 16, 16, 16, 16, 17, 16, 17, 16, 17, 18, 17, 18, 18, 17, 18, 21, 19,
        20, 21, 20, 19, 21, 24, 22, 22, 24, 24, 22, 22, 24, 25, 25, 27, 30, 27, 25, 25, 29, 31, 35,
        35, 31, 29, 36, 41, 44, 41, 36, 47, 54, 54, 47, 65, 70, 65, 88, 88, 115,
    ]
}

// Table 7-6, matrixId 3 to 5.
fn inter() -> [u8; 64]
    ensures { result ≡ inter }
{
    [
        16, 16, 16, 16, 16, 16, 16, 16, 16, 16, 17, 17, 17, 17, 17, 18, 18, 18, 18, 18, 18, 20, 20,
        20, 20, 20, 20, 20, 24, 24, 24, 24, 24, 24, 24, 24, 25, 25, 25, 25, 25, 25, 25, 28, 28, 28,
        28, 28, 28, 33, 33, 33, 33, 33, 41, 41, 41, 41, 54, 54, 54, 71, 71, 91,
    ]
}

// The coefficients of a list, zeros after them, and its DC.
#[derive(Clone, Copy)]
pub(crate) struct ResolvedList {
    pub(crate) coefs: [u8; 64],
    pub(crate) dc: u8,
}

// The default list of an id.
fn default_coefs(id: ListId) -> [u8; 64]
    ensures { result ≡ filled 64 (default_list (id.number / 6) (id.number % 6)) }
{
    if id.size_id() == 0 {
        return flat();
    }
    if id.matrix_id() < 3 { intra() } else { inter() }
}

// The same with its DC.
fn default_resolved(id: ListId) -> ResolvedList
    ensures { result ≡ resolved_list (default_factors (id.number / 6) (id.number % 6)) }
{
    ResolvedList {
        coefs: default_coefs(id),
        dc: 16,
    }
}

// The list that one is predicted from: at sizeId 3 three matrixIds back for each step.
fn earlier(id: ListId, delta: usize) -> ListId
    requires { delta ≤ max_delta (id.number / 6) (id.number % 6) }
    ensures { result.number ≡ id.number / 6 * 6 + ref_matrix_id (id.number / 6) (id.number % 6) delta }
{
    if id.size_id() == 3 {
        return ListId {
            number: id.number - 3 * delta,
        };
    }
    ListId {
        number: id.number - delta,
    }
}

// A list with its DC.
pub(crate) fn resolved(d: &HevcScalingListData, id: ListId) -> ResolvedList
    requires { InRanges d.now }
    ensures { result ≡ resolved_list (resolved d.now (id.number / 6) (id.number % 6)) }
{
    let list = d.list(id);
    if list.pred_mode_flag {
        let coefs = list.coefs;
        return ResolvedList {
            coefs,
            dc: first_coef(list.dc_coef_minus8),
        };
    }
    if list.pred_matrix_id_delta == 0 {
        return default_resolved(id);
    }
    resolved(d, earlier(id, list.pred_matrix_id_delta as usize))
}
