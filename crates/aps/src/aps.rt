// adaptation_parameter_set_rbsp(), H.266 7.3.2.6. After src/h266/aps.rs.
ghost use Rattle.std.specs.Prelude.{◌≡◌};
ghost use Rattle.bitstream.specs.Outcome.{map_outcome};
ghost use Rattle.aps.specs.Inner.{Opens};
ghost use Rattle.aps.specs.Kinds.{largest_id};
ghost use Rattle.aps.specs.Rbsp.{parse_aps_rbsp};
ghost use Rattle.aps.specs.ApsSyntax.{empty_set, number_of};
ghost use Rattle.aps.specs.Reading.{outcome_reading, head_of, kind_named};

use crate::LONGEST_RBSP;
use crate::alf::VvcAlfData;
use crate::lmcs::VvcLmcsData;
use crate::opened::Opened;
use crate::payload::{Coded, pass_payload};
use crate::reader::Reader;
use crate::scaling_list::VvcScalingListData;
use bitstream::{Input, Refusal};

// aps_params_type.
#[derive(Clone, Copy, Debug, PartialEq, Eq)]
pub enum ApsKind {
    Alf,
    Lmcs,
    Scaling,
}

// Each kind's number, its largest id and the most bytes of its RBSP, as constants on a type of its own: a form fixed for this place.
#[derive(Clone, Copy)]
pub struct Alf;

impl Alf {
    pub const NUMBER: u8 = 0;

    pub const MAX_ID: u8 = 7;

    pub const MAX_BYTES: usize = 832;
}

#[derive(Clone, Copy)]
pub struct Lmcs;

impl Lmcs {
    pub const NUMBER: u8 = 1;

    pub const MAX_ID: u8 = 3;

    pub const MAX_BYTES: usize = 37;
}

#[derive(Clone, Copy)]
pub struct Scaling;

impl Scaling {
    pub const NUMBER: u8 = 2;

    pub const MAX_ID: u8 = 7;

    pub const MAX_BYTES: usize = LONGEST_RBSP;
}

impl ApsKind {
    // Its largest id.
    pub fn max_id(self) -> u8
        ensures { result ≡ largest_id (number_of self) }
    {
        match self {
            ApsKind::Alf => Alf::MAX_ID,
            ApsKind::Lmcs => Lmcs::MAX_ID,
            ApsKind::Scaling => Scaling::MAX_ID,
        }
    }
}

// A kind's number.
impl From<ApsKind> for u8 {
    ghost from_gives = { λ kind n. n ≡ number_of kind };

    fn from(kind: ApsKind) -> Self {
        match kind {
            ApsKind::Alf => Alf::NUMBER,
            ApsKind::Lmcs => Lmcs::NUMBER,
            ApsKind::Scaling => Scaling::NUMBER,
        }
    }
}

// The kind of a number. 3: there is none.
impl TryFrom<u8> for ApsKind {
    type Error = Refusal;

    ghost try_from_gives = { kind_named };

    fn try_from(number: u8) -> Result<Self, Refusal> {
        match number {
            Alf::NUMBER => Ok(ApsKind::Alf),
            Lmcs::NUMBER => Ok(ApsKind::Lmcs),
            Scaling::NUMBER => Ok(ApsKind::Scaling),
            _ => Err(Refusal::Unsupported),
        }
    }
}

// A set, with the Rust's fields: its kind beside the arrays of all three; those of the other two are 0 when it was read.
#[derive(Clone, Copy)]
pub struct VvcAps {
    pub kind: ApsKind,
    pub aps_adaptation_parameter_set_id: u8,
    pub aps_chroma_present_flag: bool,
    pub aps_extension_flag: bool,
    pub alf: VvcAlfData,
    pub lmcs: VvcLmcsData,
    pub scaling: VvcScalingListData,
}

// What reading gives: the value, and the bit where reading ended.
#[derive(Clone, Copy)]
pub struct Reading<T> {
    pub value: T,
    pub end: usize,
}

// A set without its arrays.
#[derive(Clone, Copy, Debug, PartialEq, Eq)]
pub struct ApsHead {
    pub kind: ApsKind,
    pub aps_adaptation_parameter_set_id: u8,
    pub aps_chroma_present_flag: bool,
    pub aps_extension_flag: bool,
}

// Every field zero, false or the first case. Written out, the law is the description's set.
impl Default for ApsHead {
    ghost is_default = { λ h. h ≡ head_of empty_set };

    fn default() -> Self {
        ApsHead {
            kind: ApsKind::Alf,
            aps_adaptation_parameter_set_id: 0,
            aps_chroma_present_flag: false,
            aps_extension_flag: false,
        }
    }
}

impl Default for VvcAps {
    ghost is_default = { λ a. a ≡ empty_set };

    fn default() -> Self {
        let head = ApsHead::default();
        VvcAps {
            kind: head.kind,
            aps_adaptation_parameter_set_id: head.aps_adaptation_parameter_set_id,
            aps_chroma_present_flag: head.aps_chroma_present_flag,
            aps_extension_flag: head.aps_extension_flag,
            alf: VvcAlfData::default(),
            lmcs: VvcLmcsData::default(),
            scaling: VvcScalingListData::default(),
        }
    }
}

// What stands before the payload, and the reader of what follows.
#[inline(always)]
pub(crate) fn open_rbsp(bytes: &[u8]) -> Result<Opened<'_>, Refusal>
    ensures { Opens bytes.now result }
{
    if LONGEST_RBSP < bytes.len() {
        return Err(Refusal::InputTooLong);
    }
    let input = Input { bytes };
    let mut reader = Reader::new(input);
    let number = reader.u(3, 8)?;
    let id = reader.u(5, 8)?;
    let chroma = reader.flag()?;
    let kind = ApsKind::try_from(number as u8)?;
    let head = ApsHead {
        kind,
        aps_adaptation_parameter_set_id: id as u8,
        aps_chroma_present_flag: chroma,
        ..ApsHead::default()
    };
    Ok(Opened { reader, head })
}

// A set out of its RBSP, escapes removed.
pub fn parse_aps_rbsp(bytes: &[u8]) -> Result<Reading<VvcAps>, Refusal>
    ensures { outcome_reading result ≡ parse_aps_rbsp bytes.now }
{
    let opened = open_rbsp(bytes)?;
    let mut set = VvcAps::default();
    let reading = match opened.head.kind {
        ApsKind::Alf => VvcAlfData::read(opened, &mut set.alf)?,
        ApsKind::Lmcs => VvcLmcsData::read(opened, &mut set.lmcs)?,
        ApsKind::Scaling => VvcScalingListData::read(opened, &mut set.scaling)?,
    };
    let head = reading.value;
    set.kind = head.kind;
    set.aps_adaptation_parameter_set_id = head.aps_adaptation_parameter_set_id;
    set.aps_chroma_present_flag = head.aps_chroma_present_flag;
    set.aps_extension_flag = head.aps_extension_flag;
    Ok(Reading {
        value: set,
        end: reading.end,
    })
}

// Of a set out of its RBSP the end, kind, id and flags, and no array.
pub fn parse_aps_head(bytes: &[u8]) -> Result<Reading<ApsHead>, Refusal>
    ensures { outcome_reading result ≡ map_outcome head_of (parse_aps_rbsp bytes.now) }
{
    pass_payload(open_rbsp(bytes)?)
}
