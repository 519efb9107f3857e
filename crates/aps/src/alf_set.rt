// A set of loop filters.
ghost use Rattle.std.specs.Prelude.{◌≡◌, refl};
ghost use Rattle.aps.specs.Reading.{assembled};
ghost use Rattle.aps.specs.Payloads.{bare_alf, other_alf, own_alf, alone_alf, sent_alf};
ghost use Rattle.aps.specs.ApsSyntax.{of_alf, zero_alf, zero_lmcs, zero_scaling};
ghost use Rattle.aps.specs.declared.aps.ApsKind.{ApsKind};
ghost use Rattle.aps.specs.Writing.{alf_set};

use crate::alf::{VvcAlfData, parse_alf_data};
use crate::alf_write::write_alf_data;
use crate::aps::{Alf, ApsHead, ApsKind, Reading};
use crate::ending::close_rbsp;
use crate::opened::Opened;
use crate::payload::Coded;
use crate::writer::Writer;
use bitstream::Refusal;

impl Coded for VvcAlfData {
    ghost KIND = { ApsKind.Alf };

    ghost none = { zero_alf };

    ghost set = { λ h d. assembled h d zero_lmcs zero_scaling };

    ghost part = { λ a. a.alf };

    ghost alone = { alf_set };

    ghost sent = { λ chroma d. of_alf d };

    const KIND: ApsKind = ApsKind::Alf;

    fn read(opened: Opened<'_>, d: &mut Self) -> Result<Reading<ApsHead>, Refusal> {
        let mut reader = opened.reader;
        let head = opened.head;
        parse_alf_data(&mut reader, head.aps_chroma_present_flag, d)?;
        // Its id is judged after its payload.
        if Alf::MAX_ID < head.aps_adaptation_parameter_set_id {
            return Err(Refusal::InvalidData);
        }
        close_rbsp(reader, head)
    }

    fn write(&self, writer: &mut Writer, chroma: bool) -> Result<(), Refusal> {
        write_alf_data(writer, chroma, self)
    }

    ghost default_is = { λ p e. e };

    ghost head_is = { λ h p. refl };

    ghost part_is = { λ h p. refl };

    ghost bare = { bare_alf };

    ghost other = { other_alf };

    ghost own = { own_alf };

    ghost sent_alone = { alone_alf };

    ghost sent_part = { sent_alf };
}
