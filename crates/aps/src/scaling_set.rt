// A set of scaling lists.
ghost use Rattle.std.specs.Prelude.{◌≡◌, refl};
ghost use Rattle.aps.specs.Reading.{assembled};
ghost use Rattle.aps.specs.Payloads.{bare_scaling, other_scaling, own_scaling, alone_scaling, sent_scaling};
ghost use Rattle.aps.specs.ApsSyntax.{of_scaling, zero_alf, zero_lmcs, zero_scaling};
ghost use Rattle.aps.specs.declared.aps.ApsKind.{ApsKind};
ghost use Rattle.aps.specs.Writing.{scaling_set};
ghost use Rattle.aps.specs.ScalingSyntax.{look};

use crate::aps::{ApsHead, ApsKind, Reading, Scaling};
use crate::ending::close_rbsp;
use crate::opened::Opened;
use crate::payload::Coded;
use crate::scaling_list::VvcScalingListData;
use crate::scaling_list_data::parse_scaling_list_data;
use crate::scaling_list_write::write_scaling_list_data;
use crate::writer::Writer;
use bitstream::Refusal;

impl Coded for VvcScalingListData {
    ghost KIND = { ApsKind.Scaling };

    ghost none = { zero_scaling };

    ghost set = { λ h d. assembled h zero_alf zero_lmcs d };

    ghost part = { λ a. a.scaling };

    ghost alone = { scaling_set };

    ghost sent = { λ chroma d. of_scaling (look chroma d) };

    const KIND: ApsKind = ApsKind::Scaling;

    fn read(opened: Opened<'_>, d: &mut Self) -> Result<Reading<ApsHead>, Refusal> {
        let mut reader = opened.reader;
        let head = opened.head;
        parse_scaling_list_data(&mut reader, head.aps_chroma_present_flag, d)?;
        // Its id is judged after its payload.
        if Scaling::MAX_ID < head.aps_adaptation_parameter_set_id {
            return Err(Refusal::InvalidData);
        }
        close_rbsp(reader, head)
    }

    fn write(&self, writer: &mut Writer, chroma: bool) -> Result<(), Refusal> {
        write_scaling_list_data(writer, chroma, self)
    }

    ghost default_is = { λ p e. e };

    ghost head_is = { λ h p. refl };

    ghost part_is = { λ h p. refl };

    ghost bare = { bare_scaling };

    ghost other = { other_scaling };

    ghost own = { own_scaling };

    ghost sent_alone = { alone_scaling };

    ghost sent_part = { sent_scaling };
}
