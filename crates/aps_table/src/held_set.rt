// What the table keeps of an accepted unit.
use aps::unit_header::UnitHeader;

// The unit's type, layer and temporal id plus one, and its set or a part of it.
#[derive(Clone, Copy)]
pub struct HeldSet<T> {
    pub header: UnitHeader,
    pub set: T,
}
