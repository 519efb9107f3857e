// The table of a recording's sets at a place of its file, which is read in pieces.
ghost use Rattle.std.specs.Prelude.{◌≤◌};

use aps_table::places::{Table, new_table};
use recording::recording::{OutOfPlace, Recording, close, feed};
use std::io::Read;

// How much is read at once.
const PIECE: usize = 65536;

// Why there is none.
#[derive(Clone, Copy)]
pub enum Why {
    // The file could not be read on.
    Unreadable,
    // The offset is past the file's end.
    PastTheEnd,
    // No start code, nor zero bytes before one, stand at the offset, and it is not the end.
    NoStartCode,
    // The place of the first byte that may not stand where it stands.
    Broken(usize),
}

impl From<OutOfPlace> for Why {
    fn from(why: OutOfPlace) -> Why {
        Why::Broken(why.place)
    }
}

// What stands behind the offset, as far as it was read.
#[derive(Clone, Copy)]
enum Behind {
    Nothing,
    OneZero,
    // Two zero bytes or more.
    Zeros,
    StartCode,
    Other,
}

impl Behind {
    // With one byte more.
    fn then(self, b: u8) -> Self {
        match (self, b) {
            (Behind::Nothing, 0) => Behind::OneZero,
            (Behind::OneZero, 0) => Behind::Zeros,
            (Behind::Zeros, 0) => Behind::Zeros,
            (Behind::Zeros, 1) => Behind::StartCode,
            (Behind::StartCode, _) => Behind::StartCode,
            _ => Behind::Other,
        }
    }

    fn and(self, bytes: &[u8]) -> Self {
        let mut behind = self;
        for &b in bytes {
            behind = behind.then(b);
        }
        behind
    }
}

// How many of n bytes stand before the offset, of which so many are left before it; all where there is none.
fn before(left: Option<u64>, n: usize) -> usize
    ensures { result ≤ n }
{
    match left {
        Some(left) if left < n as u64 => left as usize,
        _ => n,
    }
}

// At the file's end: an offset that is there, or none, may be a cut.
fn at_end(left: Option<u64>, behind: Behind) -> Result<(), Why> {
    if left.unwrap_or(0) > 0 {
        return Err(Why::PastTheEnd);
    }
    match behind {
        Behind::Nothing => Ok(()),
        _ => Err(Why::NoStartCode),
    }
}

// The table at an offset, or at the end where there is none.
pub fn table_at<F: Read>(file: &mut F, offset: Option<u64>) -> Result<Table, Why> {
    let mut recording = Recording::new();
    let mut table = new_table();
    let mut left = offset;
    let mut behind = Behind::Nothing;
    let mut buffer = [0u8; PIECE];
    for _ in 0..u64::MAX {
        let n = match file.read(&mut buffer) {
            Ok(n) => n.min(PIECE),
            Err(_) => return Err(Why::Unreadable),
        };
        if n == 0 {
            at_end(left, behind)?;
            break;
        }
        let m = before(left, n);
        feed(&mut recording, &mut table, &buffer[..m])?;
        left = left.map(|l| l.saturating_sub(m as u64));
        behind = behind.and(&buffer[m..n]);
        match behind {
            Behind::StartCode => break,
            Behind::Other => return Err(Why::NoStartCode),
            _ => (),
        }
    }
    close(&mut recording, &mut table)?;
    Ok(table)
}
