ghost use Rattle.std.specs.Prelude.{◌≡◌};
ghost use Rattle.ot_exec_code.specs.Numbers.{narrow, bits, is_negative, magnitude, rank};

/// An integer type: so many bits, with a sign or without. A number of it is kept in 64 bits, as two's complement has it: the bits above
/// are those of the sign, or 0.
#[derive(Clone, Copy, Debug, PartialEq, Eq)]
pub struct Kind {
    pub width: Width,
    pub signed: bool,
}

#[derive(Clone, Copy, Debug, PartialEq, Eq)]
pub enum Width {
    Bits8,
    Bits16,
    Bits32,
    Bits64,
}

impl Width {
    /// How many bits it has.
    pub fn bits(self) -> u32
        ensures { result ≡ bits self }
    {
        match self {
            Width::Bits8 => 8,
            Width::Bits16 => 16,
            Width::Bits32 => 32,
            Width::Bits64 => 64,
        }
    }
}

impl Kind {
    /// The number of this type that has the same low bits.
    pub fn narrow(self, n: u64) -> u64
        ensures { result ≡ narrow self n }
    {
        match self.width {
            Width::Bits8 => extended(self.signed, n % 0x100, 0x80, 0xffff_ffff_ffff_ff00),
            Width::Bits16 => extended(self.signed, n % 0x1_0000, 0x8000, 0xffff_ffff_ffff_0000),
            Width::Bits32 => extended(
                self.signed,
                n % 0x1_0000_0000,
                0x8000_0000,
                0xffff_ffff_0000_0000,
            ),
            Width::Bits64 => n,
        }
    }

    /// Whether it stands for a number below 0.
    pub(crate) fn is_negative(self, n: u64) -> bool
        ensures { result ≡ is_negative self n }
    {
        self.signed && n >= 1 << 63
    }

    /// Its size without the sign.
    pub(crate) fn magnitude(self, n: u64) -> u64
        ensures { result ≡ magnitude self n }
    {
        if self.is_negative(n) {
            0u64.wrapping_sub(n)
        } else {
            n
        }
    }

    /// What orders numbers of this type.
    pub(crate) fn rank(self, n: u64) -> u64
        ensures { result ≡ rank self n }
    {
        if self.signed {
            n.wrapping_add(1 << 63)
        } else {
            n
        }
    }
}

ghost use Rattle.std.specs.Prelude.{◌<◌, ◌+◌, ◌^◌, ◌&&◌, nat_le, if◌then◌else◌};

/// A number with these bits above it where it has a sign that begins there.
fn extended(signed: bool, low: u64, half: u64, above: u64) -> u64
    requires { low + above < 2 ^ 64 }
    ensures { result ≡ (if signed && nat_le half low then low + above else low) }
{
    if signed && low >= half {
        low + above
    } else {
        low
    }
}
