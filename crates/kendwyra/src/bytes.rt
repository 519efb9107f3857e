// Units' headers, RBSPs written again, and escapes.
ghost use Rattle.std.specs.Prelude.{◌≡◌, [], ◌∷◌};
ghost use Rattle.std.proofs.lemmas.List.Edits.{sets};
ghost use Rattle.bitstream.specs.Outcome.{left};
ghost use Rattle.bitstream.specs.Escapes.{ebsp_to_rbsp, rbsp_to_ebsp};
ghost use Rattle.aps.specs.Unit.{parse_nal_header};
ghost use Rattle.kendwyra.specs.Codes.{code, place_left, header_left, rewrite};

use crate::calls::sized;
use aps::aps::parse_aps_rbsp;
use aps::nal_header::{VvcNalHeader, parse_nal_header};
use aps::write::write_aps;
use bitstream::nal::{ebsp_to_rbsp, rbsp_to_ebsp};

fn put_header(h: VvcNalHeader, header: &mut [u8; 5])
    ensures { header.new ≡ sets header.old 0 (h.forbidden_zero_bit ∷ h.nuh_reserved_zero_bit ∷ h.nuh_layer_id ∷ h.nal_unit_type ∷ h.nuh_temporal_id_plus1 ∷ []) }
{
    *header = [
        h.forbidden_zero_bit,
        h.nuh_reserved_zero_bit,
        h.nuh_layer_id,
        h.nal_unit_type,
        h.nuh_temporal_id_plus1,
    ];
}

#[tactic(auto, unfolding(crate::specs::Codes::code, crate::specs::Codes::header_left))]
#[unsafe(no_mangle)]
pub extern "C" fn aps_parse_nal_header(unit: &[u8], header: &mut [u8; 5]) -> u32
    ensures code { result ≡ code (parse_nal_header unit.now) }
    ensures header { header.new ≡ header_left (parse_nal_header unit.now) header.old }
{
    match parse_nal_header(unit) {
        Ok(h) => {
            put_header(h, header);
            0
        }
        Err(e) => e.into(),
    }
}

// A set read from an RBSP and written again at the start of out, and its length.
#[tactic(auto, unfolding(crate::specs::Codes::code, crate::specs::Codes::place_left, crate::specs::Codes::rewrite))]
#[unsafe(no_mangle)]
pub extern "C" fn aps_rewrite(bytes: &[u8], out: &mut [u8], len: &mut [u64; 1]) -> u32
    ensures code { result ≡ code (rewrite bytes.now out.old) }
    ensures out { out.new ≡ left out.old (rewrite bytes.now out.old) }
    ensures len { len.new ≡ place_left (rewrite bytes.now out.old) len.old }
{
    match parse_aps_rbsp(bytes) {
        Ok(reading) => sized(write_aps(&reading.value, out), len),
        Err(e) => e.into(),
    }
}

// Escapes removed, into out, and the length.
#[unsafe(no_mangle)]
pub extern "C" fn aps_ebsp_to_rbsp(src: &[u8], out: &mut [u8], len: &mut [u64; 1]) -> u32
    ensures code { result ≡ code (ebsp_to_rbsp src.now out.old) }
    ensures out { out.new ≡ left out.old (ebsp_to_rbsp src.now out.old) }
    ensures len { len.new ≡ place_left (ebsp_to_rbsp src.now out.old) len.old }
{
    sized(ebsp_to_rbsp(src, out), len)
}

// Escapes put in, into out, and the length.
#[unsafe(no_mangle)]
pub extern "C" fn aps_rbsp_to_ebsp(src: &[u8], out: &mut [u8], len: &mut [u64; 1]) -> u32
    ensures code { result ≡ code (rbsp_to_ebsp src.now out.old) }
    ensures out { out.new ≡ left out.old (rbsp_to_ebsp src.now out.old) }
    ensures len { len.new ≡ place_left (rbsp_to_ebsp src.now out.old) len.old }
{
    sized(rbsp_to_ebsp(src, out), len)
}
