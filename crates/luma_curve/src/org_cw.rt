// What follows from a bit depth alone: its O, and the values of bins by it.
ghost use Rattle.std.specs.Prelude.{◌≡◌, ℕ, true, false, ◌*◌, ◌≤◌, ◌&&◌, leb, pos, get_or, IfOk, IfErr};
ghost use Rattle.bitstream.specs.declared.Refusal.TheVariants.{DepthOutOfRange, CodewordOutOfRange};
ghost use Rattle.luma_curve.specs.Bin.{org_cw, in_range, forward, scale, rest, row};

use bitstream::Refusal;

// H.266's OrgCW of a depth: the codeword of a bin without a delta.
#[derive(Clone, Copy)]
pub(crate) struct OrgCw {
    pub(crate) value: u32,
    ghost range: { (16 ≤ value) × (value ≤ 256) },
}

impl OrgCw {
    // 7: the depth is not from 8 to 12.
    pub(crate) fn new(depth: u32) -> Result<Self, Refusal>
        ensures ok { IfOk result (λ o. (o.value ≡ org_cw depth) × (8 ≤ depth) × (depth ≤ 12)) }
        ensures err { IfErr result (λ why. (why ≡ DepthOutOfRange) × ((leb 8 depth && leb depth 12) ≡ false)) }
    {
        if depth < 8 || 12 < depth {
            return Err(Refusal::DepthOutOfRange);
        }
        Ok(OrgCw {
            value: 1 << (depth - 4),
        })
    }

    // The codeword that a sum makes. 10: it is below O / 8 or above 8 * O - 1.
    pub(crate) fn codeword(self, sum: i32) -> Result<u32, Refusal>
        ensures ok { IfOk result (λ c. (pos c ≡ sum) × (in_range self.value sum ≡ true)) }
        ensures err { IfErr result (λ why. (why ≡ CodewordOutOfRange) × (in_range self.value sum ≡ false)) }
    {
        let o = self.value as i32;
        if sum < o / 8 || 8 * o - 1 < sum {
            return Err(Refusal::CodewordOutOfRange);
        }
        Ok(sum as u32)
    }

    // The forward scale of a codeword.
    #[tactic(auto, unfolding(crate::specs::Bin::forward))]
    pub(crate) fn forward(self, codeword: u32) -> u32
        requires { codeword ≤ 2048 }
        ensures { result ≡ forward self.value codeword }
    {
        let o = self.value;
        (codeword * 2048 + o / 2) / o
    }

    // O * 2048 divided by a codeword; `empty` in an empty bin.
    #[tactic(auto, unfolding(crate::specs::Bin::scale))]
    fn scale(self, empty: u32, codeword: u32) -> u32
        ensures { result ≡ scale empty self.value codeword }
    {
        if codeword == 0 {
            return empty;
        }
        self.value * 2048 / codeword
    }

    // Its exact remainder.
    #[tactic(auto, unfolding(crate::specs::Bin::rest))]
    fn rest(self, codeword: u32) -> u32
        ensures { result ≡ rest self.value codeword }
    {
        if codeword == 0 {
            return 0;
        }
        self.value * 2048 % codeword
    }

    // The forward scale of each codeword.
    pub(crate) fn forwards(self, codewords: [u32; 16]) -> [u32; 16]
        requires { (k : ℕ) → get_or codewords k 0 ≤ 2048 }
        ensures { result ≡ row 16 (λ k. forward self.value (get_or codewords k 0)) }
    {
        let mut forwards = [0; 16];
        for i in 0..16 {
            forwards[i] = self.forward(codewords[i]);
        }
        forwards
    }

    // O * 2048 divided by each codeword; `empty` in an empty bin.
    pub(crate) fn scales(self, empty: u32, codewords: [u32; 16]) -> [u32; 16]
        ensures { result ≡ row 16 (λ k. scale empty self.value (get_or codewords k 0)) }
    {
        let mut scales = [0; 16];
        for i in 0..16 {
            scales[i] = self.scale(empty, codewords[i]);
        }
        scales
    }

    // The exact remainders of these divisions.
    pub(crate) fn rests(self, codewords: [u32; 16]) -> [u32; 16]
        ensures { result ≡ row 16 (λ k. rest self.value (get_or codewords k 0)) }
    {
        let mut rests = [0; 16];
        for i in 0..16 {
            rests[i] = self.rest(codewords[i]);
        }
        rests
    }
}
