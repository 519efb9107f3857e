// A set of the luma curve.
ghost use Rattle.std.specs.Prelude.{◌≡◌, refl};
ghost use Rattle.aps.specs.Reading.{assembled};
ghost use Rattle.aps.specs.Payloads.{bare_lmcs, other_lmcs, own_lmcs, alone_lmcs, sent_lmcs};
ghost use Rattle.aps.specs.ApsSyntax.{of_lmcs, zero_alf, zero_lmcs, zero_scaling};
ghost use Rattle.aps.specs.declared.aps.ApsKind.{ApsKind};
ghost use Rattle.aps.specs.Writing.{lmcs_set};

use crate::aps::{ApsHead, ApsKind, Lmcs, Reading};
use crate::ending::close_rbsp;
use crate::lmcs::{VvcLmcsData, parse_lmcs_data};
use crate::lmcs_write::write_lmcs_data;
use crate::opened::Opened;
use crate::payload::Coded;
use crate::writer::Writer;
use bitstream::Refusal;

impl Coded for VvcLmcsData {
    ghost KIND = { ApsKind.Lmcs };

    ghost none = { zero_lmcs };

    ghost set = { λ h d. assembled h zero_alf d zero_scaling };

    ghost part = { λ a. a.lmcs };

    ghost alone = { lmcs_set };

    ghost sent = { λ chroma d. of_lmcs d };

    const KIND: ApsKind = ApsKind::Lmcs;

    fn read(opened: Opened<'_>, d: &mut Self) -> Result<Reading<ApsHead>, Refusal> {
        let mut reader = opened.reader;
        let head = opened.head;
        // Its id is judged before its payload.
        if Lmcs::MAX_ID < head.aps_adaptation_parameter_set_id {
            return Err(Refusal::InvalidData);
        }
        parse_lmcs_data(&mut reader, head.aps_chroma_present_flag, d)?;
        close_rbsp(reader, head)
    }

    fn write(&self, writer: &mut Writer, chroma: bool) -> Result<(), Refusal> {
        write_lmcs_data(writer, chroma, self)
    }

    ghost default_is = { λ p e. e };

    ghost head_is = { λ h p. refl };

    ghost part_is = { λ h p. refl };

    ghost bare = { bare_lmcs };

    ghost other = { other_lmcs };

    ghost own = { own_lmcs };

    ghost sent_alone = { alone_lmcs };

    ghost sent_part = { sent_lmcs };
}
