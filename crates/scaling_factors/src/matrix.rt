// A matrix by row and column, from the order of the diagonal scan (6.5.2).
ghost use Rattle.std.specs.Prelude.{◌≡◌, ◌*◌, ◌<◌, length, get_or};
ghost use Rattle.scaling_factors.specs.Matrix.{scan_next, matrix};
ghost use Rattle.scaling_factors.specs.Inner.{Scans};

// A place of a block.
#[derive(Clone, Copy)]
struct Place {
    x: usize,
    y: usize,
}

impl Place {
    // The place after it in the scan of a block, by the block's last column and row.
    #[tactic(auto, unfolding(crate::specs::Matrix::scan_next))]
    fn next(self, last: usize) -> Self
        requires { (self.x < 8) × (self.y < 8) }
        ensures { (result.x, result.y) ≡ scan_next last (self.x, self.y) }
    {
        if 0 < self.y && self.x < last {
            return Place {
                x: self.x + 1,
                y: self.y - 1,
            };
        }
        let d = self.x + self.y + 1;
        let y = d.min(last);
        Place { x: d - y, y }
    }
}

// The rows of a block of N columns and rows, from the order of its scan.
pub(crate) fn rows<const N: usize>(list: &[u8]) -> [[u8; N]; N]
    requires { (Scans N) × (length list.now ≡ N * N) }
    ensures { result ≡ matrix N (λ i. get_or list.now i 0) }
{
    let mut rows = [[0; N]; N];
    let mut place = Place { x: 0, y: 0 };
    for &factor in list {
        rows[place.y][place.x] = factor;
        place = place.next(N - 1);
    }
    rows
}
