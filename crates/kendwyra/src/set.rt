// What the three structs have in common.
ghost use Rattle.std.specs.Prelude.{◌≡◌, Bool, ℕ, true, false, IfSome, IfNone};
ghost use Rattle.aps.specs.Reading.{part_by};
ghost use Rattle.aps.specs.declared.aps.VvcAps.{VvcAps};
ghost use Rattle.kendwyra.specs.Flags.{byte_flag};

use aps::payload::{ApsOf, Payload};

// C's struct of a set of one kind, whose payload is P.
pub(crate) trait Struct<P: Payload>: Copy {
    // That of a set.
    ghost of: { VvcAps → Self };

    // Each flag is 0 or 1.
    ghost flags: { Self → Bool };

    // The set that one means.
    ghost meaning: { Self → VvcAps };

    ghost id: { Self → ℕ };

    ghost chroma: { Self → ℕ };

    ghost extension: { Self → ℕ };

    fn id(&self) -> u8
        ensures { result ≡ id self.now };

    fn chroma(&self) -> u8
        ensures { result ≡ chroma self.now };

    fn extension(&self) -> u8
        ensures { result ≡ extension self.now };

    fn put(&mut self, set: &ApsOf<P>)
        ensures { (a : VvcAps) → set.now ≡ part_by P.part a → self.new ≡ of a };

    // None: a flag is neither 0 nor 1.
    fn payload(&self) -> Option<P>
        ensures some { IfSome result (λ d. (flags self.now ≡ true)
            × (P.alone (id self.now) (byte_flag (chroma self.now)) (byte_flag (extension self.now)) d ≡ meaning self.now)) }
        ensures none { IfNone result (flags self.now ≡ false) };
}
