// A set with one of its fields changed, written as an RBSP and as a unit.
use crate::order::{Field, Visitor, visit};
use crate::print::{hexadecimal, number, refused, text};
use aps::aps::{VvcAps, parse_aps_rbsp};
use aps::nal_header::NAL_TYPE_PREFIX_APS;
use aps::unit_header::UnitHeader;
use aps::write::{write_aps, write_aps_nal};
use bitstream::Refusal;

// What the Rust writes: layer 0 and temporal id 0.
const HEADER: UnitHeader = UnitHeader {
    nal_unit_type: NAL_TYPE_PREFIX_APS,
    nuh_layer_id: 0,
    nuh_temporal_id_plus1: 1,
};

// The bytes that were written, or the refusal's number.
fn answered(size: Result<usize, Refusal>, out: &[u8]) {
    match size {
        Ok(n) => {
            number(n as u64);
            text(b" bytes ");
            hexadecimal(&out[..n.min(out.len())]);
        }
        Err(why) => refused(why),
    }
}

fn both(set: &VvcAps, out: &mut [u8]) {
    let size = write_aps(set, out);
    answered(size, out);
    text(b", unit ");
    let size = write_aps_nal(set, HEADER, out);
    answered(size, out);
}

fn within(set: &VvcAps, room: usize) {
    let mut out = io::buffer();
    let n = room.min(out.len());
    both(set, &mut out[..n]);
}

// A field of a set to change, by its index, and the room of the output.
#[derive(Clone, Copy)]
struct Change {
    index: usize,
    value: i64,
    room: usize,
}

impl Change {
    // An index, a sign, a magnitude and the room, in 2, 1, 4 and 2 bytes.
    fn read(bytes: &[u8]) -> Option<Change> {
        let &[i0, i1, sign, m0, m1, m2, m3, r0, r1] = bytes else {
            return None;
        };
        let magnitude = i64::from(u32::from_be_bytes([m0, m1, m2, m3]));
        Some(Change {
            index: usize::from(u16::from_be_bytes([i0, i1])),
            value: if sign == 0 { magnitude } else { -magnitude },
            room: usize::from(u16::from_be_bytes([r0, r1])),
        })
    }
}

// How many fields come before the one to change, none once it is passed, and whether it holds the value.
#[derive(Drop)]
struct Setter {
    before: Option<usize>,
    value: i64,
    holds: bool,
}

impl Setter {
    fn set<F: Field>(&mut self, field: &mut F) {
        if let Some(changed) = field.with(self.value) {
            *field = changed;
            self.holds = true;
        }
    }
}

impl Visitor for Setter {
    fn one<F: Field>(&mut self, field: &mut F) {
        if self.before == Some(0) {
            self.set(field);
        }
        self.before = self.before.and_then(|n| n.checked_sub(1));
    }
}

// 2: the field can't hold the value, or there is none with this index.
fn changed(rbsp: &[u8], change: Change) -> Result<VvcAps, Refusal> {
    let mut set = parse_aps_rbsp(rbsp)?.value;
    let mut setter = Setter {
        before: Some(change.index),
        value: change.value,
        holds: false,
    };
    visit(&mut set, &mut setter);
    if setter.holds {
        Ok(set)
    } else {
        Err(Refusal::InvalidData)
    }
}

fn written(rbsp: &[u8], change: Change) {
    match changed(rbsp, change) {
        Ok(set) => within(&set, change.room),
        Err(why) => {
            refused(why);
            text(b", unit ");
            refused(why);
        }
    }
    text(b"\n");
}

pub fn answer(rbsp: &[u8], bytes: &[u8]) {
    if let Some(change) = Change::read(bytes) {
        written(rbsp, change);
    }
}
