// Values of which nothing is sent: what is inferred is 0 or false.
ghost use Rattle.std.specs.Prelude.{◌≡◌, Bool, not, eqb};
ghost use Rattle.aps.specs.Elements.{every};
ghost use Rattle.aps.specs.Writes.{unsent};

use bitstream::Refusal;

// No == with Default: their laws are relations, and the description asks a function of each entry. For a type of entry only: a record names its fields once, in a function of its own.
pub(crate) trait Inferred: Copy {
    ghost inferred: { Self → Bool };

    fn is_inferred(self) -> bool
        ensures { result ≡ inferred self };
}

impl Inferred for bool {
    ghost inferred = { not };

    fn is_inferred(self) -> bool {
        !self
    }
}

impl Inferred for u8 {
    ghost inferred = { λ v. eqb v 0 };

    fn is_inferred(self) -> bool {
        self == 0
    }
}

impl Inferred for u32 {
    ghost inferred = { λ v. eqb v 0 };

    fn is_inferred(self) -> bool {
        self == 0
    }
}

// Whether each value is the inferred one. All are looked at, so that many can be at once.
pub(crate) fn all_inferred<T: Inferred>(values: &[T]) -> bool
    ensures { result ≡ every T.inferred values.now }
{
    let mut all = true;
    for v in values {
        all &= v.is_inferred();
    }
    all
}

// Nothing is sent: refused with 2 where the value is not the inferred one.
pub(crate) fn unsent(inferred: bool) -> Result<(), Refusal>
    ensures { result ≡ unsent inferred }
{
    if inferred {
        Ok(())
    } else {
        Err(Refusal::InvalidData)
    }
}
