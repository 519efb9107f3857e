// A set written as an RBSP or as a unit. After src/h266/aps.rs.
ghost use Rattle.std.specs.Prelude.{◌≡◌, Bool, false, ℕ, ◌+◌, ◌≤◌, replicate, OnOk};
ghost use Rattle.bitstream.specs.Outcome.{left, outcome_written};
ghost use Rattle.bitstream.specs.Escapes.{put_bytes};
ghost use Rattle.aps.specs.declared.aps.VvcAps.{VvcAps};
ghost use Rattle.aps.specs.ApsSyntax.{of_alf, of_lmcs, of_scaling, payload, aps, from_aps, number_of};
ghost use Rattle.aps.specs.ApsSyntax as Syntax;
ghost use Rattle.aps.specs.ScalingSyntax.{look};
ghost use Rattle.aps.specs.Writes.{Wrote, closed};
ghost use Rattle.aps.specs.Writing.{bytes_due, writable, write_aps, write_nal, write_aps_nal};

use crate::LONGEST_RBSP;
use crate::alf::VvcAlfData;
use crate::aps::{ApsKind, VvcAps};
use crate::lmcs::VvcLmcsData;
use crate::payload::Coded;
use crate::scaling_list::VvcScalingListData;
use crate::unit_header::UnitHeader;
use crate::writer::Writer;
use bitstream::Refusal;
use bitstream::nal::rbsp_to_ebsp;

// A set up to its extension flag, which is 0: what stands before the payload, the payload and the flag.
fn put_set<P: Coded>(writer: &mut Writer, id: u8, chroma: bool, d: &P) -> Result<(), Refusal>
    requires { writer.old.at ≤ 90 }
    ensures wrote { (a : VvcAps) → from_aps a ≡ (number_of P.KIND, (id, (chroma, (P.sent chroma d.now, false)))) → Wrote aps a writer.old writer.new result }
    ensures within { writer.new.at ≤ writer.old.at + 31258 }
{
    writer.u(u32::from(u8::from(P::KIND)), 3)?;
    writer.u(u32::from(id), 5)?;
    writer.flag(chroma)?;
    if P::KIND.max_id() < id {
        return Err(Refusal::InvalidData);
    }
    d.write(writer, chroma)?;
    writer.flag(false)
}

// A set with what closes its RBSP. 3: extension flag 1; 2; 4: over 2,048 bytes. A new writer is lent: given by value, its 2 KB would be copied.
pub(crate) fn put_rbsp<P: Coded>(
    writer: &mut Writer,
    id: u8,
    chroma: bool,
    extension: bool,
    d: &P,
) -> Result<(), Refusal>
    requires { (writer.old.at ≡ 0) × (writer.old.buffer ≡ replicate 2064 0) }
    ensures bytes { (a : VvcAps) → from_aps a ≡ (number_of P.KIND, (id, (chroma, (P.sent chroma d.now, extension)))) → closed result writer.new ≡ bytes_due a }
    ensures short { OnOk result (writer.new.at ≤ 16384) }
{
    if extension {
        return Err(Refusal::Unsupported);
    }
    put_set(writer, id, chroma, d)?;
    writer.trailing_bits()?;
    if 8 * LONGEST_RBSP < writer.at {
        return Err(Refusal::InputTooLong);
    }
    Ok(())
}

// The RBSP of a set, into a new writer too.
fn write_rbsp(writer: &mut Writer, set: &VvcAps) -> Result<(), Refusal>
    requires { (writer.old.at ≡ 0) × (writer.old.buffer ≡ replicate 2064 0) }
    ensures bytes { closed result writer.new ≡ bytes_due set.now }
    ensures short { OnOk result (writer.new.at ≤ 16384) }
{
    let id = set.aps_adaptation_parameter_set_id;
    let chroma = set.aps_chroma_present_flag;
    let extension = set.aps_extension_flag;
    match set.kind {
        ApsKind::Alf => put_rbsp(writer, id, chroma, extension, &set.alf),
        ApsKind::Lmcs => put_rbsp(writer, id, chroma, extension, &set.lmcs),
        ApsKind::Scaling => put_rbsp(writer, id, chroma, extension, &set.scaling),
    }
}

// Whether the writer takes a set of this payload with extension flag 0: it is asked, and what it puts is dropped.
pub(crate) fn is_taken<P: Coded>(id: u8, chroma: bool, d: &P) -> bool
    ensures { (a : VvcAps) → from_aps a ≡ (number_of P.KIND, (id, (chroma, (P.sent chroma d.now, false)))) → result ≡ aps.ok a }
{
    let mut writer = Writer::new();
    put_set(&mut writer, id, chroma, d).is_ok()
}

// Whether the writer would take a set were its extension flag 0.
pub fn is_writable(set: &VvcAps) -> bool
    ensures { result ≡ writable set.now }
{
    let id = set.aps_adaptation_parameter_set_id;
    let chroma = set.aps_chroma_present_flag;
    match set.kind {
        ApsKind::Alf => is_taken(id, chroma, &set.alf),
        ApsKind::Lmcs => is_taken(id, chroma, &set.lmcs),
        ApsKind::Scaling => is_taken(id, chroma, &set.scaling),
    }
}

// Bytes put at the start of the output if it has room for them.
pub fn copy_out(bytes: &[u8], out: &mut [u8]) -> Result<usize, Refusal>
    ensures answer { outcome_written result out.new ≡ put_bytes out.old bytes.now }
    ensures bytes { out.new ≡ left out.old (put_bytes out.old bytes.now) }
{
    if out.len() < bytes.len() {
        return Err(Refusal::OutputTooShort);
    }
    out[..bytes.len()].copy_from_slice(bytes);
    Ok(bytes.len())
}

// An RBSP as a unit: its header, then the RBSP with escapes put in. 2: the header's type, then its layer and temporal id; 4; 5.
pub fn write_nal(rbsp: &[u8], header: UnitHeader, out: &mut [u8]) -> Result<usize, Refusal>
    ensures answer { outcome_written result out.new ≡ write_nal rbsp.now header out.old }
    ensures bytes { out.new ≡ left out.old (write_nal rbsp.now header out.old) }
{
    if !header.is_aps() {
        return Err(Refusal::InvalidData);
    }
    if LONGEST_RBSP < rbsp.len() {
        return Err(Refusal::InputTooLong);
    }
    if out.len() < 2 {
        return Err(Refusal::OutputTooShort);
    }
    let n = rbsp_to_ebsp(rbsp, &mut out[2..])?;
    out[0] = header.nuh_layer_id;
    out[1] = header.nal_unit_type * 8 + header.nuh_temporal_id_plus1;
    Ok(n + 2)
}

// A set as an RBSP, stop bit and padding included.
pub fn write_aps(set: &VvcAps, out: &mut [u8]) -> Result<usize, Refusal>
    ensures answer { outcome_written result out.new ≡ write_aps set.now out.old }
    ensures bytes { out.new ≡ left out.old (write_aps set.now out.old) }
{
    let mut writer = Writer::new();
    write_rbsp(&mut writer, set)?;
    copy_out(writer.bytes(), out)
}

// A set as a unit: its header, then the RBSP with escapes put in.
pub fn write_aps_nal(set: &VvcAps, header: UnitHeader, out: &mut [u8]) -> Result<usize, Refusal>
    ensures answer { outcome_written result out.new ≡ write_aps_nal set.now header out.old }
    ensures bytes { out.new ≡ left out.old (write_aps_nal set.now header out.old) }
{
    if !header.is_aps() {
        return Err(Refusal::InvalidData);
    }
    let mut writer = Writer::new();
    write_rbsp(&mut writer, set)?;
    write_nal(writer.bytes(), header, out)
}
