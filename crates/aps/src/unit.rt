// A unit, H.266 7.3.1.2: its header judged, and the set that it holds.
ghost use Rattle.std.specs.Prelude.{◌≡◌, length};
ghost use Rattle.bitstream.specs.Outcome.{map_outcome};
ghost use Rattle.aps.specs.Inner.{Unwrapped};
ghost use Rattle.aps.specs.Unit.{parse_aps, work_after};
ghost use Rattle.aps.specs.Reading.{outcome_reading, head_of};

use crate::LONGEST_RBSP;
use crate::aps::{ApsHead, Reading, VvcAps, parse_aps_head, parse_aps_rbsp};
use crate::unit_header::parse_unit_header;
use bitstream::nal::{ebsp_to_rbsp, unescaped_fits};
use bitstream::{Input, Refusal};

// The RBSP of a unit, put at the start of the work buffer: how many bytes it has. 4, 1 and 2 of the header; 4: it is too long; 5.
pub(crate) fn rbsp_to_work(unit: &[u8], work: &mut [u8]) -> Result<usize, Refusal>
    ensures answer { Unwrapped result (parse_aps unit.now (length work.old)) work.new }
    ensures work { work.new ≡ work_after unit.now work.old }
{
    parse_unit_header(unit)?;
    let bytes = &unit[2..];
    if !unescaped_fits(Input { bytes }, LONGEST_RBSP) {
        return Err(Refusal::InputTooLong);
    }
    ebsp_to_rbsp(bytes, work)
}

// A set out of a unit.
pub fn parse_aps(unit: &[u8], work: &mut [u8]) -> Result<Reading<VvcAps>, Refusal>
    ensures answer { outcome_reading result ≡ parse_aps unit.now (length work.old) }
    ensures work { work.new ≡ work_after unit.now work.old }
{
    let n = rbsp_to_work(unit, work)?;
    parse_aps_rbsp(&work[..n])
}

// Of a set out of a unit the end, kind, id and flags, and no array.
pub fn parse_unit_head(unit: &[u8], work: &mut [u8]) -> Result<Reading<ApsHead>, Refusal>
    ensures answer { outcome_reading result ≡ map_outcome head_of (parse_aps unit.now (length work.old)) }
    ensures work { work.new ≡ work_after unit.now work.old }
{
    let n = rbsp_to_work(unit, work)?;
    parse_aps_head(&work[..n])
}
