//! C's integer types on the fixed machine (C11 6.2.5, 6.2.6.2, 6.3.1).

ghost use Rattle.std.specs.Prelude.{◌≡◌, ◌^◌, ◌<◌, ◌≤◌, pos, neg_ℤ, ◌≤ℤ◌};
ghost use Rattle.c_ir.specs.Types as spec;

/// An integer type. `char` has the numbers of `signed char`, and `long long` those of `long`; each is a type of
/// its own (C11 6.2.5).
#[derive(Clone, Copy, Debug, PartialEq, Eq)]
pub enum IntType {
    /// `_Bool`
    Bool,
    Char,
    SignedChar,
    UnsignedChar,
    Short,
    UnsignedShort,
    Int,
    UnsignedInt,
    Long,
    UnsignedLong,
    LongLong,
    UnsignedLongLong,
}

impl IntType {
    /// The width in bits, sign included (C11 6.2.6.2).
    pub fn width(self) -> u32
        ensures value { result ≡ spec.width self }
        ensures bound { result ≤ 64 }
    {
        match self {
            IntType::Bool => 1,
            IntType::Char | IntType::SignedChar | IntType::UnsignedChar => 8,
            IntType::Short | IntType::UnsignedShort => 16,
            IntType::Int | IntType::UnsignedInt => 32,
            IntType::Long | IntType::UnsignedLong | IntType::LongLong | IntType::UnsignedLongLong =>
                64,
        }
    }

    /// Whether the type has negative numbers.
    pub fn is_signed(self) -> bool
        ensures { result ≡ spec.is_signed self }
    {
        match self {
            IntType::Char
            | IntType::SignedChar
            | IntType::Short
            | IntType::Int
            | IntType::Long
            | IntType::LongLong => true,
            IntType::Bool
            | IntType::UnsignedChar
            | IntType::UnsignedShort
            | IntType::UnsignedInt
            | IntType::UnsignedLong
            | IntType::UnsignedLongLong => false,
        }
    }

    /// The conversion rank (C11 6.3.1.1): greater for a type of greater rank.
    pub fn rank(self) -> u8
        ensures { result ≡ spec.rank self }
    {
        match self {
            IntType::Bool => 0,
            IntType::Char | IntType::SignedChar | IntType::UnsignedChar => 1,
            IntType::Short | IntType::UnsignedShort => 2,
            IntType::Int | IntType::UnsignedInt => 3,
            IntType::Long | IntType::UnsignedLong => 4,
            IntType::LongLong | IntType::UnsignedLongLong => 5,
        }
    }

    /// A number for each type, from 0 on.
    fn number(self) -> u8
        ensures { result ≡ spec.number self }
    {
        match self {
            IntType::Bool => 0,
            IntType::Char => 1,
            IntType::SignedChar => 2,
            IntType::UnsignedChar => 3,
            IntType::Short => 4,
            IntType::UnsignedShort => 5,
            IntType::Int => 6,
            IntType::UnsignedInt => 7,
            IntType::Long => 8,
            IntType::UnsignedLong => 9,
            IntType::LongLong => 10,
            IntType::UnsignedLongLong => 11,
        }
    }

    /// Whether both are one type.
    pub fn is(self, other: IntType) -> bool
        ensures { result ≡ spec.same_type self other }
    {
        self.number() == other.number()
    }

    /// The least number (C11 5.2.4.2.1, in two's complement).
    pub fn least(self) -> i128
        ensures value { result ≡ spec.least self }
        ensures low { neg_ℤ (pos (2 ^ 63)) ≤ℤ result }
        ensures high { result ≤ℤ pos 0 }
    {
        match self {
            IntType::Char | IntType::SignedChar => -128,
            IntType::Short => -32_768,
            IntType::Int => -2_147_483_648,
            IntType::Long | IntType::LongLong => -9_223_372_036_854_775_808,
            IntType::Bool
            | IntType::UnsignedChar
            | IntType::UnsignedShort
            | IntType::UnsignedInt
            | IntType::UnsignedLong
            | IntType::UnsignedLongLong => 0,
        }
    }

    /// The greatest number (C11 5.2.4.2.1).
    pub fn greatest(self) -> u128
        ensures value { result ≡ spec.greatest self }
        ensures bound { result < 2 ^ 64 }
    {
        match self {
            IntType::Bool => 1,
            IntType::Char | IntType::SignedChar => 127,
            IntType::UnsignedChar => 255,
            IntType::Short => 32_767,
            IntType::UnsignedShort => 65_535,
            IntType::Int => 2_147_483_647,
            IntType::UnsignedInt => 4_294_967_295,
            IntType::Long | IntType::LongLong => 9_223_372_036_854_775_807,
            IntType::UnsignedLong | IntType::UnsignedLongLong => 18_446_744_073_709_551_615,
        }
    }

    /// `int` in place of a type of lower rank (C11 6.3.1.1, integer promotions).
    pub fn promoted(self) -> IntType
        ensures { result ≡ spec.promoted self }
    {
        if self.rank() < 3 { IntType::Int } else { self }
    }

    /// The unsigned type of the same rank, of a type whose rank is that of `int` or greater (C11 6.2.5).
    fn unsigned(self) -> IntType
        ensures { result ≡ spec.unsigned self }
    {
        match self {
            IntType::Int => IntType::UnsignedInt,
            IntType::Long => IntType::UnsignedLong,
            IntType::LongLong => IntType::UnsignedLongLong,
            _ => self,
        }
    }

    /// The common type of two promoted types (C11 6.3.1.8, usual arithmetic conversions).
    #[tactic(auto, unfolding(crate::specs::Types::common))]
    pub fn common(self, other: IntType) -> IntType
        ensures { result ≡ spec.common self other }
    {
        if self.width() < other.width() {
            return other;
        }
        if other.width() < self.width() {
            return self;
        }
        let higher = if self.rank() < other.rank() {
            other
        } else {
            self
        };
        if self.is_signed() && other.is_signed() {
            higher
        } else {
            higher.unsigned()
        }
    }
}
