// Library 1: bit fields and escapes, after src/bit_reader.rs, src/bit_writer.rs and src/nal.rs of the Rust.
#![tactic(auto)]

pub mod bit_reader;
pub mod bit_writer;
pub mod nal;
mod place;
pub mod short_codes;
pub mod window;

ghost use Rattle.std.specs.Prelude.{◌≡◌, ◌≤◌, ◌<◌, length, IfOk, OnOk, IfErr};
ghost use Rattle.bitstream.specs.Outcome.{number};
ghost use Rattle.bitstream.specs.declared.Refusal.TheVariants.{InputTooLong};

// The longest input that is taken, in bytes.
pub const LONGEST_INPUT: usize = 65536;

// The last bit at which a field may start.
pub const LAST_START: usize = 1048576;

// Why a call refuses: the numbers 1 to 14, in order.
#[derive(Clone, Copy, Debug, PartialEq, Eq)]
pub enum Refusal {
    UnexpectedEnd,
    InvalidData,
    Unsupported,
    InputTooLong,
    OutputTooShort,
    EmptyPlace,
    DepthOutOfRange,
    NotSent,
    ZeroFactor,
    CodewordOutOfRange,
    CodewordsTooLarge,
    SampleOutOfRange,
    ZeroElement,
    MarkNotSet,
}

// A refusal's number.
impl From<Refusal> for u32 {
    ghost from_gives = { λ why n. n ≡ number why };

    fn from(why: Refusal) -> u32 {
        match why {
            Refusal::UnexpectedEnd => 1,
            Refusal::InvalidData => 2,
            Refusal::Unsupported => 3,
            Refusal::InputTooLong => 4,
            Refusal::OutputTooShort => 5,
            Refusal::EmptyPlace => 6,
            Refusal::DepthOutOfRange => 7,
            Refusal::NotSent => 8,
            Refusal::ZeroFactor => 9,
            Refusal::CodewordOutOfRange => 10,
            Refusal::CodewordsTooLarge => 11,
            Refusal::SampleOutOfRange => 12,
            Refusal::ZeroElement => 13,
            Refusal::MarkNotSet => 14,
        }
    }
}

// An input that is not too long.
#[derive(Clone, Copy)]
pub struct Input<'a> {
    pub bytes: &'a [u8],
    ghost short: { length bytes.now ≤ 65536 },
}

impl<'a> Input<'a> {
    // 4: it is longer.
    pub fn new(bytes: &'a [u8]) -> Result<Self, Refusal>
        ensures ok { IfOk result (λ input. input.bytes.now ≡ bytes.now) }
        ensures short { OnOk result (length bytes.now ≤ 65536) }
        ensures err { IfErr result (λ why. (why ≡ InputTooLong) × (65536 < length bytes.now)) }
    {
        if LONGEST_INPUT < bytes.len() {
            return Err(Refusal::InputTooLong);
        }
        Ok(Input { bytes })
    }
}
