// Where a unit of a stream ends, H.266 Annex B.
ghost use Rattle.std.specs.Prelude.{◌+◌, ◌≤◌, length};
ghost use Rattle.aps_table.specs.Inner.{InUnit, Scanned, UnitEnd};

// Where a unit goes on after the last bytes of a stream, fewer than three: zero bytes at the end are not the unit's own.
fn scan_last(s: &[u8], e: usize) -> Option<usize>
    requires { (e ≤ length s.now) × (length s.now ≤ e + 2) }
    ensures { Scanned s.now e result }
{
    let n = s.len();
    if n == e {
        return None;
    }
    if s[n - 1] != 0 {
        return Some(n);
    }
    if s[e] != 0 {
        return Some(e + 1);
    }
    None
}

// Where a unit goes on after steps of three bytes of which the last is over 1: most of a unit is passed in these.
fn pass_threes(s: &[u8], from: usize) -> usize
    requires { from ≤ length s.now }
    ensures { InUnit s.now from result }
{
    let mut e = from;
    while 3 <= s.len() - e && s[e + 2] > 1 {
        e += 3;
    }
    e
}

// Where a unit goes on after a step, or after a run of steps of three bytes; none: it ends here. No start code begins in three bytes of which the last is over 1.
fn scan_on(s: &[u8], e: usize) -> Option<usize>
    requires { e ≤ length s.now }
    ensures { Scanned s.now e result }
{
    if s.len() - e < 3 {
        return scan_last(s, e);
    }
    if s[e + 2] > 1 {
        return Some(pass_threes(s, e + 3));
    }
    if s[e + 1] != 0 {
        return Some(e + 2);
    }
    if s[e] != 0 {
        return Some(e + 1);
    }
    None
}

// How many bytes the unit has that starts the bytes.
// A call by itself, so that its loop is laid out alone.
#[inline(never)]
pub(crate) fn unit_end(s: &[u8]) -> usize
    ensures { UnitEnd s.now 0 result }
{
    let mut e = 0;
    // The next place is what the step gives; no index is counted.
    while let Some(next) = scan_on(s, e) {
        e = next;
    }
    e
}
