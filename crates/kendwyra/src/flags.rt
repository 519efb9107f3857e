// Flags as bytes, and bytes as flags.
ghost use Rattle.std.specs.Prelude.{◌≡◌};
ghost use Rattle.kendwyra.specs.Flags.{flag_bytes, byte_flags, are_flags};

pub(crate) fn put_flags<const N: usize>(flags: &[bool; N], bytes: &mut [u8; N])
    ensures { bytes.new ≡ flag_bytes flags.now }
{
    for (i, byte) in bytes.iter_mut().enumerate() {
        *byte = u8::from(flags[i]);
    }
}

pub(crate) fn flags_of<const N: usize>(bytes: &[u8; N]) -> [bool; N]
    ensures { result ≡ byte_flags bytes.now }
{
    let mut flags = [false; N];
    for (i, flag) in flags.iter_mut().enumerate() {
        *flag = bytes[i] == 1;
    }
    flags
}

// All are looked at, so that many can be at once.
pub(crate) fn are_flags(bytes: &[u8]) -> bool
    ensures { result ≡ are_flags bytes.now }
{
    let mut all = true;
    for &b in bytes {
        all &= b <= 1;
    }
    all
}
