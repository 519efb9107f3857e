// scaling_list_data(), H.266 7.3.2.20.
ghost use Rattle.std.specs.Prelude.{◌≡◌, ◌%◌, ◌<◌};

// List id is at 64 * id of the flat array, in the order of the diagonal scan. Its arrays beside one another, as the Rust's fields are.
#[derive(Clone, Copy)]
pub struct VvcScalingListData {
    pub copy_mode_flag: [bool; 28],
    pub pred_mode_flag: [bool; 28],
    pub pred_id_delta: [u32; 28],
    pub dc_coef: [i32; 14],
    pub scaling_list: [i32; 1792],
}

// Bit i: position i of the diagonal scan (6.5.2) is in column 4 or more and row 4 or more.
const CORNER: u64 = 0xFFDC_6080_0000_0000;

// Nothing sent. Written out as ALF's parts are.
impl Default for VvcScalingListData {
    ghost use Rattle.aps.specs.ApsSyntax.{zero_scaling};

    ghost is_default = { λ d. d ≡ zero_scaling };

    fn default() -> Self {
        VvcScalingListData {
            copy_mode_flag: [false; 28],
            pred_mode_flag: [false; 28],
            pred_id_delta: [0; 28],
            dc_coef: [0; 14],
            scaling_list: [0; 1792],
        }
    }
}

// A list's id, 0 to 27.
#[derive(Clone, Copy)]
pub struct ListId {
    pub number: usize,
    ghost below: { number < 28 },
}

impl ListId {
    ghost use Rattle.aps.specs.ScalingSyntax.{skipped, matrix_size, entries, max_id_delta, id_coded, delta_sent};

    // matrix_size.
    #[tactic(auto, unfolding(crate::specs::ScalingSyntax::matrix_size))]
    pub fn matrix_size(self) -> usize
        ensures { result ≡ matrix_size self.number }
    {
        if self.number < 2 {
            return 2;
        }
        if self.number < 8 {
            return 4;
        }
        8
    }

    // matrix_size * matrix_size.
    pub fn matrix_entries(self) -> usize
        ensures { result ≡ entries self.number }
    {
        let n = self.matrix_size();
        n * n
    }

    // max_id_delta (101).
    #[tactic(auto, unfolding(crate::specs::ScalingSyntax::max_id_delta))]
    pub fn max_id_delta(self) -> usize
        ensures { result ≡ max_id_delta self.number }
    {
        if self.number < 2 {
            return self.number;
        }
        if self.number < 8 {
            return self.number - 2;
        }
        self.number - 8
    }

    // The syntax codes it under this chroma flag.
    #[tactic(auto, unfolding(crate::specs::ScalingSyntax::id_coded))]
    pub fn scaling_id_coded(self, chroma: bool) -> bool
        ensures { result ≡ id_coded chroma self.number }
    {
        chroma || self.number % 3 == 2 || self.number == 27
    }

    // A step of it that is not read, at a position of the 64.
    pub(crate) fn step_skipped(self, i: usize) -> bool
        ensures { result ≡ skipped self.number (i % 64) }
    {
        25 < self.number && (CORNER >> (i % 64) as u64) % 2 == 1
    }

    // scaling_list_pred_id_delta is sent for an id that is copied or predicted, but for the first of each size.
    pub fn delta_sent(self, used: bool) -> bool
        ensures { result ≡ delta_sent self.number used }
    {
        used && self.number != 0 && self.number != 2 && self.number != 8
    }
}
