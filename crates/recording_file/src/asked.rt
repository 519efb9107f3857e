// What a program is asked with: a file, and an offset or none; and the lines that say why there is no answer.
use crate::table_at::{Why, table_at};
use aps_table::places::Table;
use std::env::{self, Env};
use std::fs::File;
use std::rt::Files;

// A line on standard error.
fn line(text: &[u8]) {
    io::write_all(2, text);
    io::write_all(2, b"\n");
}

// A decimal number of digits alone that 64 bits hold.
fn number(text: &[u8]) -> Option<u64> {
    if text.is_empty() {
        return None;
    }
    let mut n = 0u64;
    for &b in text {
        if b < 48 || 57 < b {
            return None;
        }
        n = n.checked_mul(10)?.checked_add((b - 48) as u64)?;
    }
    Some(n)
}

fn say(why: Why) {
    match why {
        Why::Unreadable => line(b"the file can't be read"),
        Why::PastTheEnd => line(b"the offset is past the file's end"),
        Why::NoStartCode => line(b"no start code begins at the offset"),
        Why::Broken(place) => {
            io::write_all(2, b"the recording is broken at byte ");
            io::print_decimal(2, place as u64);
            io::write_all(2, b"\n");
        }
    }
}

// The table of the file that the first argument names, at the offset that the second does; none, and a line on standard error, where there is none.
pub fn asked_table<R: Files + Env + AllocGlobal>(rt: &R) -> Option<Table> {
    let mut args = env::args(rt).ok()?;
    args.next();
    let Some(path) = args.next() else {
        line(b"which file?");
        return None;
    };
    let offset = match args.next() {
        Some(text) => match number(text.as_bytes()) {
            Some(n) => Some(n),
            None => {
                line(b"the offset is no number");
                return None;
            }
        },
        None => None,
    };
    let Ok(mut file) = File::open(rt, path.as_str()) else {
        line(b"the file can't be opened");
        return None;
    };
    match table_at(&mut file, offset) {
        Ok(table) => Some(table),
        Err(why) => {
            say(why);
            None
        }
    }
}
