// The calls of a set of one kind by C's struct of it.
ghost use Rattle.std.specs.Prelude.{length, ◌≡◌};
ghost use Rattle.bitstream.specs.Outcome.{left};
ghost use Rattle.aps.specs.Rbsp.{parse_aps_rbsp};
ghost use Rattle.aps.specs.Unit.{parse_aps, work_after};
ghost use Rattle.aps.specs.Writing.{write_aps, write_aps_nal};
ghost use Rattle.aps_table.specs.Places.{looked_up};
ghost use Rattle.kendwyra.specs.Codes.{code, value_left, place_left, of_kind, looked_code, looked_left, header_held, set_held, taken, taken_nal};
ghost use Rattle.kendwyra.specs.Structs.{alf_struct, alf_flags, alf_in, lmcs_struct, lmcs_flags, lmcs_in, scaling_struct, scaling_flags, scaling_in};

use crate::calls;
use crate::structs::{ApsAlf, ApsLmcs, ApsScaling};
use aps::alf::VvcAlfData;
use aps::aps::ApsKind;
use aps::lmcs::VvcLmcsData;
use aps::scaling_list::VvcScalingListData;
use aps::unit_header::UnitHeader;
use aps_table::places::Table;

// An ALF set out of its RBSP, and the bit where reading ended; 2 also for a set of another kind.
#[unsafe(no_mangle)]
pub extern "C" fn aps_alf_parse_rbsp(bytes: &[u8], set: &mut ApsAlf, end: &mut [u64; 1]) -> u32
    ensures code { result ≡ code (of_kind ApsKind.Alf alf_struct (parse_aps_rbsp bytes.now)) }
    ensures set { set.new ≡ value_left (of_kind ApsKind.Alf alf_struct (parse_aps_rbsp bytes.now)) set.old }
    ensures end { end.new ≡ place_left (of_kind ApsKind.Alf alf_struct (parse_aps_rbsp bytes.now)) end.old }
{
    calls::parse_rbsp::<VvcAlfData, ApsAlf>(bytes, set, end)
}

// An ALF set out of a unit; its RBSP goes to the start of the work buffer.
#[unsafe(no_mangle)]
pub extern "C" fn aps_alf_parse(
    unit: &[u8],
    work: &mut [u8],
    set: &mut ApsAlf,
    end: &mut [u64; 1],
) -> u32
    ensures code { result ≡ code (of_kind ApsKind.Alf alf_struct (parse_aps unit.now (length work.old))) }
    ensures set { set.new ≡ value_left (of_kind ApsKind.Alf alf_struct (parse_aps unit.now (length work.old))) set.old }
    ensures end { end.new ≡ place_left (of_kind ApsKind.Alf alf_struct (parse_aps unit.now (length work.old))) end.old }
    ensures work { work.new ≡ work_after unit.now work.old }
{
    calls::parse::<VvcAlfData, ApsAlf>(unit, work, set, end)
}

// An ALF set that the table holds for an id, and its unit's header.
#[unsafe(no_mangle)]
pub extern "C" fn aps_alf_lookup(
    table: &Table,
    id: u8,
    set: &mut ApsAlf,
    header: &mut UnitHeader,
) -> u32
    ensures code { result ≡ looked_code (looked_up table.now 0 id) }
    ensures set { set.new ≡ looked_left (set_held alf_struct) (looked_up table.now 0 id) set.old }
    ensures header { header.new ≡ looked_left header_held (looked_up table.now 0 id) header.old }
{
    calls::look_up::<VvcAlfData, ApsAlf>(table, id, set, header)
}

// An ALF set as an RBSP at the start of out, and its length.
#[unsafe(no_mangle)]
pub extern "C" fn aps_alf_write(set: &ApsAlf, out: &mut [u8], len: &mut [u64; 1]) -> u32
    ensures code { result ≡ code (taken set.now.aps_extension_flag (alf_flags set.now) (write_aps (alf_in set.now) out.old)) }
    ensures out { out.new ≡ left out.old (taken set.now.aps_extension_flag (alf_flags set.now) (write_aps (alf_in set.now) out.old)) }
    ensures len { len.new ≡ place_left (taken set.now.aps_extension_flag (alf_flags set.now) (write_aps (alf_in set.now) out.old)) len.old }
{
    calls::write::<VvcAlfData, ApsAlf>(set, out, len)
}

// An ALF set as a unit at the start of out, and its length.
#[unsafe(no_mangle)]
pub extern "C" fn aps_alf_write_nal(
    set: &ApsAlf,
    header: UnitHeader,
    out: &mut [u8],
    len: &mut [u64; 1],
) -> u32
    ensures code { result ≡ code (taken_nal header set.now.aps_extension_flag (alf_flags set.now) (write_aps_nal (alf_in set.now) header out.old)) }
    ensures out { out.new ≡ left out.old (taken_nal header set.now.aps_extension_flag (alf_flags set.now) (write_aps_nal (alf_in set.now) header out.old)) }
    ensures len { len.new ≡ place_left (taken_nal header set.now.aps_extension_flag (alf_flags set.now) (write_aps_nal (alf_in set.now) header out.old)) len.old }
{
    calls::write_nal::<VvcAlfData, ApsAlf>(set, header, out, len)
}

// An LMCS set out of its RBSP, and the bit where reading ended; 2 also for a set of another kind.
#[unsafe(no_mangle)]
pub extern "C" fn aps_lmcs_parse_rbsp(bytes: &[u8], set: &mut ApsLmcs, end: &mut [u64; 1]) -> u32
    ensures code { result ≡ code (of_kind ApsKind.Lmcs lmcs_struct (parse_aps_rbsp bytes.now)) }
    ensures set { set.new ≡ value_left (of_kind ApsKind.Lmcs lmcs_struct (parse_aps_rbsp bytes.now)) set.old }
    ensures end { end.new ≡ place_left (of_kind ApsKind.Lmcs lmcs_struct (parse_aps_rbsp bytes.now)) end.old }
{
    calls::parse_rbsp::<VvcLmcsData, ApsLmcs>(bytes, set, end)
}

// An LMCS set out of a unit; its RBSP goes to the start of the work buffer.
#[unsafe(no_mangle)]
pub extern "C" fn aps_lmcs_parse(
    unit: &[u8],
    work: &mut [u8],
    set: &mut ApsLmcs,
    end: &mut [u64; 1],
) -> u32
    ensures code { result ≡ code (of_kind ApsKind.Lmcs lmcs_struct (parse_aps unit.now (length work.old))) }
    ensures set { set.new ≡ value_left (of_kind ApsKind.Lmcs lmcs_struct (parse_aps unit.now (length work.old))) set.old }
    ensures end { end.new ≡ place_left (of_kind ApsKind.Lmcs lmcs_struct (parse_aps unit.now (length work.old))) end.old }
    ensures work { work.new ≡ work_after unit.now work.old }
{
    calls::parse::<VvcLmcsData, ApsLmcs>(unit, work, set, end)
}

// An LMCS set that the table holds for an id, and its unit's header.
#[unsafe(no_mangle)]
pub extern "C" fn aps_lmcs_lookup(
    table: &Table,
    id: u8,
    set: &mut ApsLmcs,
    header: &mut UnitHeader,
) -> u32
    ensures code { result ≡ looked_code (looked_up table.now 1 id) }
    ensures set { set.new ≡ looked_left (set_held lmcs_struct) (looked_up table.now 1 id) set.old }
    ensures header { header.new ≡ looked_left header_held (looked_up table.now 1 id) header.old }
{
    calls::look_up::<VvcLmcsData, ApsLmcs>(table, id, set, header)
}

// An LMCS set as an RBSP at the start of out, and its length.
#[unsafe(no_mangle)]
pub extern "C" fn aps_lmcs_write(set: &ApsLmcs, out: &mut [u8], len: &mut [u64; 1]) -> u32
    ensures code { result ≡ code (taken set.now.aps_extension_flag (lmcs_flags set.now) (write_aps (lmcs_in set.now) out.old)) }
    ensures out { out.new ≡ left out.old (taken set.now.aps_extension_flag (lmcs_flags set.now) (write_aps (lmcs_in set.now) out.old)) }
    ensures len { len.new ≡ place_left (taken set.now.aps_extension_flag (lmcs_flags set.now) (write_aps (lmcs_in set.now) out.old)) len.old }
{
    calls::write::<VvcLmcsData, ApsLmcs>(set, out, len)
}

// An LMCS set as a unit at the start of out, and its length.
#[unsafe(no_mangle)]
pub extern "C" fn aps_lmcs_write_nal(
    set: &ApsLmcs,
    header: UnitHeader,
    out: &mut [u8],
    len: &mut [u64; 1],
) -> u32
    ensures code { result ≡ code (taken_nal header set.now.aps_extension_flag (lmcs_flags set.now) (write_aps_nal (lmcs_in set.now) header out.old)) }
    ensures out { out.new ≡ left out.old (taken_nal header set.now.aps_extension_flag (lmcs_flags set.now) (write_aps_nal (lmcs_in set.now) header out.old)) }
    ensures len { len.new ≡ place_left (taken_nal header set.now.aps_extension_flag (lmcs_flags set.now) (write_aps_nal (lmcs_in set.now) header out.old)) len.old }
{
    calls::write_nal::<VvcLmcsData, ApsLmcs>(set, header, out, len)
}

// A scaling set out of its RBSP, and the bit where reading ended; 2 also for a set of another kind.
#[unsafe(no_mangle)]
pub extern "C" fn aps_scaling_parse_rbsp(
    bytes: &[u8],
    set: &mut ApsScaling,
    end: &mut [u64; 1],
) -> u32
    ensures code { result ≡ code (of_kind ApsKind.Scaling scaling_struct (parse_aps_rbsp bytes.now)) }
    ensures set { set.new ≡ value_left (of_kind ApsKind.Scaling scaling_struct (parse_aps_rbsp bytes.now)) set.old }
    ensures end { end.new ≡ place_left (of_kind ApsKind.Scaling scaling_struct (parse_aps_rbsp bytes.now)) end.old }
{
    calls::parse_rbsp::<VvcScalingListData, ApsScaling>(bytes, set, end)
}

// A scaling set out of a unit; its RBSP goes to the start of the work buffer.
#[unsafe(no_mangle)]
pub extern "C" fn aps_scaling_parse(
    unit: &[u8],
    work: &mut [u8],
    set: &mut ApsScaling,
    end: &mut [u64; 1],
) -> u32
    ensures code { result ≡ code (of_kind ApsKind.Scaling scaling_struct (parse_aps unit.now (length work.old))) }
    ensures set { set.new ≡ value_left (of_kind ApsKind.Scaling scaling_struct (parse_aps unit.now (length work.old))) set.old }
    ensures end { end.new ≡ place_left (of_kind ApsKind.Scaling scaling_struct (parse_aps unit.now (length work.old))) end.old }
    ensures work { work.new ≡ work_after unit.now work.old }
{
    calls::parse::<VvcScalingListData, ApsScaling>(unit, work, set, end)
}

// A scaling set that the table holds for an id, and its unit's header.
#[unsafe(no_mangle)]
pub extern "C" fn aps_scaling_lookup(
    table: &Table,
    id: u8,
    set: &mut ApsScaling,
    header: &mut UnitHeader,
) -> u32
    ensures code { result ≡ looked_code (looked_up table.now 2 id) }
    ensures set { set.new ≡ looked_left (set_held scaling_struct) (looked_up table.now 2 id) set.old }
    ensures header { header.new ≡ looked_left header_held (looked_up table.now 2 id) header.old }
{
    calls::look_up::<VvcScalingListData, ApsScaling>(table, id, set, header)
}

// A scaling set as an RBSP at the start of out, and its length.
#[unsafe(no_mangle)]
pub extern "C" fn aps_scaling_write(set: &ApsScaling, out: &mut [u8], len: &mut [u64; 1]) -> u32
    ensures code { result ≡ code (taken set.now.aps_extension_flag (scaling_flags set.now) (write_aps (scaling_in set.now) out.old)) }
    ensures out { out.new ≡ left out.old (taken set.now.aps_extension_flag (scaling_flags set.now) (write_aps (scaling_in set.now) out.old)) }
    ensures len { len.new ≡ place_left (taken set.now.aps_extension_flag (scaling_flags set.now) (write_aps (scaling_in set.now) out.old)) len.old }
{
    calls::write::<VvcScalingListData, ApsScaling>(set, out, len)
}

// A scaling set as a unit at the start of out, and its length.
#[unsafe(no_mangle)]
pub extern "C" fn aps_scaling_write_nal(
    set: &ApsScaling,
    header: UnitHeader,
    out: &mut [u8],
    len: &mut [u64; 1],
) -> u32
    ensures code { result ≡ code (taken_nal header set.now.aps_extension_flag (scaling_flags set.now) (write_aps_nal (scaling_in set.now) header out.old)) }
    ensures out { out.new ≡ left out.old (taken_nal header set.now.aps_extension_flag (scaling_flags set.now) (write_aps_nal (scaling_in set.now) header out.old)) }
    ensures len { len.new ≡ place_left (taken_nal header set.now.aps_extension_flag (scaling_flags set.now) (write_aps_nal (scaling_in set.now) header out.old)) len.old }
{
    calls::write_nal::<VvcScalingListData, ApsScaling>(set, header, out, len)
}
