// The record of scaling_list_data(), H.265 7.3.4, and one list of it. After src/hevc.rs.
ghost use Rattle.std.specs.Prelude.{◌≡◌, cond, ◌+◌, ◌-◌, ◌/◌, ◌%◌, ◌≤◌, ◌<◌, ltb, pos, length, get_or, set, take, drop};
ghost use Rattle.std.proofs.lemmas.List.Edits.{sets};
ghost use Rattle.hevc_scaling.specs.Inner.{coefs_stored, stored};
ghost use Rattle.hevc_scaling.specs.ListData.{coefs_at, filled, list_in};

// The Rust's arrays of arrays, rows one after another: [sizeId][matrixId], [sizeId - 2][matrixId] and [matrixId][i], coefficients in the order of the clause.
#[derive(Clone, Copy)]
pub struct HevcScalingListData {
    pub pred_mode_flag: [bool; 24],
    pub pred_matrix_id_delta: [u32; 24],
    pub dc_coef_minus8: [i32; 12],
    pub list_4x4: [u8; 96],
    pub list_8x8: [u8; 384],
    pub list_16x16: [u8; 384],
    pub list_32x32: [u8; 384],
}

// Nothing sent.
impl Default for HevcScalingListData {
    ghost use Rattle.hevc_scaling.specs.ListData.{zero_lists};

    ghost is_default = { λ d. d ≡ zero_lists };

    fn default() -> Self {
        HevcScalingListData {
            pred_mode_flag: [false; 24],
            pred_matrix_id_delta: [0; 24],
            dc_coef_minus8: [0; 12],
            list_4x4: [0; 96],
            list_8x8: [0; 384],
            list_16x16: [0; 384],
            list_32x32: [0; 384],
        }
    }
}

// One list: a 4x4 one has 16 coefficients, zeros after them.
#[derive(Clone, Copy)]
pub(crate) struct ScalingList {
    pub(crate) pred_mode_flag: bool,
    pub(crate) pred_matrix_id_delta: u32,
    pub(crate) dc_coef_minus8: i32,
    pub(crate) coefs: [u8; 64],
}

// Which list: its sizeId is number / 6, its matrixId number % 6.
#[derive(Clone, Copy)]
pub(crate) struct ListId {
    pub(crate) number: usize,
    ghost below: { number < 24 },
}

impl ListId {
    ghost use Rattle.hevc_scaling.specs.ListSyntax.{is_coded, coef_num, max_delta};

    pub(crate) fn size_id(self) -> usize
        ensures { (result ≡ self.number / 6) × (result < 4) }
    {
        self.number / 6
    }

    pub(crate) fn matrix_id(self) -> usize
        ensures { (result ≡ self.number % 6) × (result < 6) }
    {
        self.number % 6
    }

    // At sizeId 3 matrixId goes up by 3.
    #[tactic(auto, unfolding(crate::specs::ListSyntax::is_coded))]
    pub(crate) fn is_coded(self) -> bool
        ensures { result ≡ is_coded (self.number / 6) (self.number % 6) }
    {
        self.size_id() != 3 || self.matrix_id() % 3 == 0
    }

    // The largest scaling_list_pred_matrix_id_delta.
    #[tactic(auto, unfolding(crate::specs::ListSyntax::max_delta))]
    pub(crate) fn max_delta(self) -> usize
        ensures { (result ≡ max_delta (self.number / 6) (self.number % 6)) × (result < 6) }
    {
        if self.size_id() == 3 {
            self.matrix_id() / 3
        } else {
            self.matrix_id()
        }
    }

    // coefNum.
    #[tactic(auto, unfolding(crate::specs::ListSyntax::coef_num))]
    pub(crate) fn coef_num(self) -> usize
        ensures value { result ≡ coef_num (self.number / 6) }
        ensures most { result ≤ 64 }
    {
        if self.size_id() == 0 { 16 } else { 64 }
    }
}

// A row put into lists.
fn put_row(lists: &mut [u8], first: usize, row: &[u8])
    requires { first + length row.now ≤ length lists.old }
    ensures { lists.new ≡ sets lists.old first row.now }
{
    lists[first..first + row.len()].copy_from_slice(row);
}

// The row of n that begins at first, zeros after it.
fn row(lists: &[u8], first: usize, n: usize) -> [u8; 64]
    requires { (first + n ≤ length lists.now) × (n ≤ 64) }
    ensures { result ≡ filled 64 (take n (drop first lists.now)) }
{
    let mut coefs = [0; 64];
    coefs[..n].copy_from_slice(&lists[first..first + n]);
    coefs
}

// The DC of sizeId 2 and 3.
fn put_dc(dc: &mut [i32; 12], id: ListId, value: i32)
    ensures { dc.new ≡ cond (ltb 11 id.number) (set dc.old (id.number - 12) value) dc.old }
{
    if 12 <= id.number {
        dc[id.number - 12] = value;
    }
}

// The same, 0 for the others.
fn dc_of(dc: &[i32; 12], id: ListId) -> i32
    ensures { result ≡ cond (ltb 11 id.number) (get_or dc.now (id.number - 12) (pos 0)) (pos 0) }
{
    if id.number < 12 {
        return 0;
    }
    dc[id.number - 12]
}

impl HevcScalingListData {
    // The coefficients of a list stored.
    fn store_coefs(&mut self, id: ListId, coefs: &[u8; 64])
        ensures { self.new ≡ coefs_stored self.old id.number coefs.now }
    {
        let first = id.matrix_id() * id.coef_num();
        match id.size_id() {
            0 => put_row(&mut self.list_4x4, first, &coefs[..16]),
            1 => put_row(&mut self.list_8x8, first, coefs),
            2 => put_row(&mut self.list_16x16, first, coefs),
            _ => put_row(&mut self.list_32x32, first, coefs),
        }
    }

    // A list stored.
    pub(crate) fn store(&mut self, id: ListId, list: &ScalingList)
        ensures { self.new ≡ stored self.old id.number list.now }
    {
        self.pred_mode_flag[id.number] = list.pred_mode_flag;
        self.pred_matrix_id_delta[id.number] = list.pred_matrix_id_delta;
        put_dc(&mut self.dc_coef_minus8, id, list.dc_coef_minus8);
        self.store_coefs(id, &list.coefs);
    }

    // The coefficients of a list, zeros after them.
    fn coefs(&self, id: ListId) -> [u8; 64]
        ensures { result ≡ filled 64 (coefs_at self.now (id.number / 6) (id.number % 6)) }
    {
        let n = id.coef_num();
        let first = id.matrix_id() * n;
        match id.size_id() {
            0 => row(&self.list_4x4, first, n),
            1 => row(&self.list_8x8, first, n),
            2 => row(&self.list_16x16, first, n),
            _ => row(&self.list_32x32, first, n),
        }
    }

    // The list of an id.
    pub(crate) fn list(&self, id: ListId) -> ScalingList
        ensures { result ≡ list_in self.now id.number }
    {
        ScalingList {
            pred_mode_flag: self.pred_mode_flag[id.number],
            pred_matrix_id_delta: self.pred_matrix_id_delta[id.number],
            dc_coef_minus8: dc_of(&self.dc_coef_minus8, id),
            coefs: self.coefs(id),
        }
    }
}
