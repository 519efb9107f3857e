// The 20 places of the table, and the bytes of each in the memory that the caller lends.
ghost use Rattle.std.specs.Prelude.{◌≡◌, ◌+◌, ◌≤◌, ◌<◌, false, ◌∷◌, ◌++◌, drop, length, IfSome, IfNone};
ghost use Rattle.std.proofs.lemmas.List.Edits.{sets};
ghost use Rattle.aps.specs.Kinds.{largest_id, most_bytes};
ghost use Rattle.aps.specs.ApsSyntax.{number_of};
ghost use Rattle.aps_table.specs.Inner.{Heads};
ghost use Rattle.aps_table.specs.Places.{named, names, place_at, place_size, place_bytes, new_table};

use aps::aps::{Alf, ApsKind, Lmcs, Scaling};
use aps::unit_header::{UnitHeader, parse_unit_header};

// How many places each kind has.
pub(crate) const ALF_PLACES: usize = Alf::MAX_ID as usize + 1;

pub(crate) const LMCS_PLACES: usize = Lmcs::MAX_ID as usize + 1;

pub(crate) const SCALING_PLACES: usize = Scaling::MAX_ID as usize + 1;

pub(crate) const PLACES: usize = ALF_PLACES + LMCS_PLACES + SCALING_PLACES;

// The bytes of a unit's header.
pub(crate) const HEADER_BYTES: usize = 2;

// A place has a header and the most bytes that a set of its kind takes.
const ALF_SIZE: usize = HEADER_BYTES + Alf::MAX_BYTES;

const LMCS_SIZE: usize = HEADER_BYTES + Lmcs::MAX_BYTES;

const SCALING_SIZE: usize = HEADER_BYTES + Scaling::MAX_BYTES;

pub const TABLE_BYTES: usize = ALF_PLACES * ALF_SIZE
    + LMCS_PLACES * LMCS_SIZE
    + SCALING_PLACES * SCALING_SIZE;

// In each place the header and the RBSP of the unit last accepted for it; all zero when new or emptied.
pub type Table = [u8; TABLE_BYTES];

// A table with all places empty.
pub fn new_table() -> Table
    ensures { result ≡ new_table }
{
    [0u8; TABLE_BYTES]
}

// Bytes put over those from a place on. No copy_from_slice: where the compiler can't tell that the two lie apart, it is a call of memmove, which the archive for C needs nowhere else.
pub(crate) fn put_over(to: &mut [u8], at: usize, bytes: &[u8])
    requires { at + length bytes.now ≤ length to.old }
    ensures { to.new ≡ sets to.old at bytes.now }
{
    for i in 0..bytes.len() {
        to[at + i] = bytes[i];
    }
}

// A place of the table: an id of its kind.
#[derive(Clone, Copy)]
pub(crate) struct Place {
    pub(crate) kind: ApsKind,
    pub(crate) id: u8,
    ghost named: { id ≤ largest_id (number_of kind) },
}

impl Place {
    // The place of a kind's number, as C passes it, and an id; none: they name no place.
    pub(crate) fn new(kind: u8, id: u8) -> Option<Self>
        ensures none { IfNone result (named kind id ≡ false) }
        ensures some { IfSome result (λ place. (number_of place.kind ≡ kind) × (place.id ≡ id)) }
    {
        if let Ok(kind) = ApsKind::try_from(kind) {
            if id <= kind.max_id() {
                return Some(Place { kind, id });
            }
        }
        None
    }

    // The 20 places in order: kind rising, then id rising.
    pub(crate) fn nth(index: usize) -> Self
        requires { index < PLACES }
        ensures { drop index names ≡ (number_of result.kind, result.id) ∷ drop (index + 1) names }
    {
        if index < ALF_PLACES {
            let id = index as u8;
            return Place {
                kind: ApsKind::Alf,
                id,
            };
        }
        if index < ALF_PLACES + LMCS_PLACES {
            let id = (index - ALF_PLACES) as u8;
            return Place {
                kind: ApsKind::Lmcs,
                id,
            };
        }
        let id = (index - ALF_PLACES - LMCS_PLACES) as u8;
        Place {
            kind: ApsKind::Scaling,
            id,
        }
    }

    // How many bytes it has.
    fn size(self) -> usize
        ensures { result ≡ place_size (number_of self.kind) }
    {
        match self.kind {
            ApsKind::Alf => ALF_SIZE,
            ApsKind::Lmcs => LMCS_SIZE,
            ApsKind::Scaling => SCALING_SIZE,
        }
    }

    // Where it begins.
    pub(crate) fn at(self) -> usize
        ensures { result ≡ place_at (number_of self.kind) self.id }
    {
        let i = self.id as usize;
        match self.kind {
            ApsKind::Alf => i * ALF_SIZE,
            ApsKind::Lmcs => ALF_PLACES * ALF_SIZE + i * LMCS_SIZE,
            ApsKind::Scaling => ALF_PLACES * ALF_SIZE + LMCS_PLACES * LMCS_SIZE + i * SCALING_SIZE,
        }
    }

    // Its bytes.
    pub(crate) fn bytes(self, table: &Table) -> &[u8]
        ensures { result.now ≡ place_bytes table.now (number_of self.kind) self.id }
    {
        let at = self.at();
        &table[at..at + self.size()]
    }

    // The header that it begins with.
    pub(crate) fn header(self, table: &Table) -> Option<UnitHeader>
        ensures { Heads (place_bytes table.now (number_of self.kind) self.id) result }
    {
        parse_unit_header(self.bytes(table)).ok()
    }

    // The bytes after it.
    pub(crate) fn rbsp(self, table: &Table) -> &[u8]
        ensures { result.now ≡ drop 2 (place_bytes table.now (number_of self.kind) self.id) }
    {
        &self.bytes(table)[HEADER_BYTES..]
    }

    // A unit's header and RBSP put at its start; the rest stays.
    pub(crate) fn store(self, table: &mut Table, header: &[u8], rbsp: &[u8])
        requires { (length header.now ≡ 2) × (length rbsp.now ≤ most_bytes (number_of self.kind)) }
        ensures { table.new ≡ sets table.old (place_at (number_of self.kind) self.id) (header.now ++ rbsp.now) }
    {
        let at = self.at();
        let start = at + HEADER_BYTES;
        table[at..start].copy_from_slice(header);
        put_over(table, start, rbsp);
    }

    ghost use Rattle.aps_table.specs.Taking.{clear};

    // Emptied: zeros are no set.
    pub(crate) fn clear(self, table: &mut Table)
        ensures { table.new ≡ clear (number_of self.kind) self.id table.old }
    {
        let at = self.at();
        table[at..at + self.size()].fill(0);
    }
}
