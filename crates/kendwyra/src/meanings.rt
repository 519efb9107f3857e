// What the calls on a set's meaning have in common: the set of a struct, and the answer.
ghost use Rattle.std.specs.Prelude.{◌≡◌, true, false, IfOk, IfErr};
ghost use Rattle.bitstream.specs.Outcome.{numbered};
ghost use Rattle.bitstream.specs.declared.Refusal.TheVariants.{InvalidData};
ghost use Rattle.luma_curve.specs.Answers as Curve;
ghost use Rattle.kendwyra.specs.Codes.{code, value_left, result_code, result_left};

use crate::set::Struct;
use aps::aps::ApsHead;
use aps::payload::{ApsOf, Payload};
use bitstream::Refusal;

// The set of a struct. 2: a flag is neither 0 nor 1.
pub(crate) fn set_of<P: Payload, S: Struct<P>>(set: &S) -> Result<ApsOf<P>, Refusal>
    ensures ok { IfOk result (λ s. (S.flags set.now ≡ true) × (P.whole s ≡ S.meaning set.now)) }
    ensures err { IfErr result (λ why. (S.flags set.now ≡ false) × (why ≡ InvalidData)) }
{
    match set.payload() {
        Some(payload) => {
            let head = ApsHead {
                kind: P::KIND,
                aps_adaptation_parameter_set_id: set.id(),
                aps_chroma_present_flag: set.chroma() == 1,
                aps_extension_flag: set.extension() == 1,
            };
            Ok(ApsOf { head, payload })
        }
        None => Err(Refusal::InvalidData),
    }
}

// The answer's value, put into what is lent for it.
#[tactic(auto, unfolding(crate::specs::Codes::result_code, crate::specs::Codes::result_left))]
pub(crate) fn put<A: Copy>(answer: Result<A, Refusal>, out: &mut A) -> u32
    ensures code { result ≡ result_code (numbered answer) }
    ensures out { out.new ≡ result_left (numbered answer) out.old }
{
    match answer {
        Ok(value) => {
            *out = value;
            0
        }
        Err(why) => why.into(),
    }
}

// The same of an outcome.
#[tactic(auto, unfolding(crate::specs::Codes::code, crate::specs::Codes::value_left))]
pub(crate) fn put_value<A: Copy>(answer: Result<A, Refusal>, out: &mut A) -> u32
    ensures code { result ≡ code (Curve.answer answer) }
    ensures out { out.new ≡ value_left (Curve.answer answer) out.old }
{
    match answer {
        Ok(value) => {
            *out = value;
            0
        }
        Err(why) => why.into(),
    }
}
