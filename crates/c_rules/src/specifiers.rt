//! The types that specifiers name (C11 6.7.2).

ghost use Rattle.std.specs.Prelude.{◌≡◌};
ghost use Rattle.c_rules.specs.Specifiers as spec;

use c_ast::{Spec, SpecWord};
use c_ir::IntType;

/// What specifiers name.
#[derive(Clone, Copy, Debug, PartialEq, Eq)]
pub enum SpecType {
    Void,
    Integer(IntType),
}

/// How often a word stands among specifiers.
#[derive(Clone, Copy, Debug)]
pub(crate) enum Times {
    Never,
    Once,
    Twice,
    More,
}

/// How often each word but `const` stands among specifiers.
#[derive(Clone, Copy, Debug)]
pub(crate) struct Counts {
    pub signed: Times,
    pub unsigned: Times,
    pub char: Times,
    pub short: Times,
    pub int: Times,
    pub long: Times,
    pub bool: Times,
    pub void: Times,
}

#[derive(Clone, Copy, Debug)]
pub(crate) enum Sign {
    Plain,
    Signed,
    Unsigned,
}

#[derive(Clone, Copy, Debug)]
pub(crate) enum Size {
    Ordinary,
    Short,
    Long,
    LongLong,
}

/// The word that names a kind of type.
#[derive(Clone, Copy, Debug)]
pub(crate) enum Base {
    /// None of them.
    Left,
    Char,
    Int,
    Bool,
    Void,
}

fn more(times: Times) -> Times
    ensures { result ≡ spec.more times }
{
    match times {
        Times::Never => Times::Once,
        Times::Once => Times::Twice,
        Times::Twice | Times::More => Times::More,
    }
}

fn counted(word: SpecWord, counts: Counts) -> Counts
    ensures { result ≡ spec.counted word counts }
{
    let mut counts = counts;
    match word {
        SpecWord::Const => (),
        SpecWord::Signed => counts.signed = more(counts.signed),
        SpecWord::Unsigned => counts.unsigned = more(counts.unsigned),
        SpecWord::Char => counts.char = more(counts.char),
        SpecWord::Short => counts.short = more(counts.short),
        SpecWord::Int => counts.int = more(counts.int),
        SpecWord::Long => counts.long = more(counts.long),
        SpecWord::Bool => counts.bool = more(counts.bool),
        SpecWord::Void => counts.void = more(counts.void),
    }
    counts
}

fn nothing() -> Counts
    ensures { result ≡ spec.nothing }
{
    Counts {
        signed: Times::Never,
        unsigned: Times::Never,
        char: Times::Never,
        short: Times::Never,
        int: Times::Never,
        long: Times::Never,
        bool: Times::Never,
        void: Times::Never,
    }
}

fn count(words: &[SpecWord]) -> Counts
    ensures { result ≡ spec.count_from spec.nothing words.now }
{
    let mut counts = nothing();
    for word in words {
        counts = counted(*word, counts);
    }
    counts
}

fn sign_of(signed: Times, unsigned: Times) -> Option<Sign>
    ensures { result ≡ spec.sign_of signed unsigned }
{
    match (signed, unsigned) {
        (Times::Never, Times::Never) => Some(Sign::Plain),
        (Times::Once, Times::Never) => Some(Sign::Signed),
        (Times::Never, Times::Once) => Some(Sign::Unsigned),
        _ => None,
    }
}

fn size_of(short: Times, long: Times) -> Option<Size>
    ensures { result ≡ spec.size_of short long }
{
    match (short, long) {
        (Times::Never, Times::Never) => Some(Size::Ordinary),
        (Times::Once, Times::Never) => Some(Size::Short),
        (Times::Never, Times::Once) => Some(Size::Long),
        (Times::Never, Times::Twice) => Some(Size::LongLong),
        _ => None,
    }
}

fn base_of(char: Times, int: Times, bool: Times, void: Times) -> Option<Base>
    ensures { result ≡ spec.base_of char int bool void }
{
    match (char, int, bool, void) {
        (Times::Never, Times::Never, Times::Never, Times::Never) => Some(Base::Left),
        (Times::Once, Times::Never, Times::Never, Times::Never) => Some(Base::Char),
        (Times::Never, Times::Once, Times::Never, Times::Never) => Some(Base::Int),
        (Times::Never, Times::Never, Times::Once, Times::Never) => Some(Base::Bool),
        (Times::Never, Times::Never, Times::Never, Times::Once) => Some(Base::Void),
        _ => None,
    }
}

fn integer(sign: Sign, size: Size) -> IntType
    ensures { result ≡ spec.integer sign size }
{
    match (sign, size) {
        (Sign::Unsigned, Size::Ordinary) => IntType::UnsignedInt,
        (Sign::Unsigned, Size::Short) => IntType::UnsignedShort,
        (Sign::Unsigned, Size::Long) => IntType::UnsignedLong,
        (Sign::Unsigned, Size::LongLong) => IntType::UnsignedLongLong,
        (_, Size::Ordinary) => IntType::Int,
        (_, Size::Short) => IntType::Short,
        (_, Size::Long) => IntType::Long,
        (_, Size::LongLong) => IntType::LongLong,
    }
}

fn character(sign: Sign) -> IntType
    ensures { result ≡ spec.character sign }
{
    match sign {
        Sign::Plain => IntType::Char,
        Sign::Signed => IntType::SignedChar,
        Sign::Unsigned => IntType::UnsignedChar,
    }
}

fn combined(base: Base, sign: Sign, size: Size) -> Option<SpecType>
    ensures { result ≡ spec.combined base sign size }
{
    match (base, sign, size) {
        (Base::Left, Sign::Plain, Size::Ordinary) => None,
        (Base::Left | Base::Int, _, _) => Some(SpecType::Integer(integer(sign, size))),
        (Base::Char, _, Size::Ordinary) => Some(SpecType::Integer(character(sign))),
        (Base::Bool, Sign::Plain, Size::Ordinary) => Some(SpecType::Integer(IntType::Bool)),
        (Base::Void, Sign::Plain, Size::Ordinary) => Some(SpecType::Void),
        _ => None,
    }
}

fn type_by(counts: Counts) -> Option<SpecType>
    ensures { result ≡ spec.type_by counts }
{
    let base = base_of(counts.char, counts.int, counts.bool, counts.void)?;
    let sign = sign_of(counts.signed, counts.unsigned)?;
    let size = size_of(counts.short, counts.long)?;
    combined(base, sign, size)
}

/// The type that specifiers name; None exactly where they are no row of the list of C11 6.7.2 for integer types
/// and `void`.
#[tactic(auto, unfolding(crate::specs::Specifiers::spec_type))]
pub fn spec_type(specifiers: &Spec) -> Option<SpecType>
    ensures { result ≡ spec.spec_type specifiers.now.words }
{
    type_by(count(specifiers.words.as_slice()))
}

fn is_const(word: SpecWord) -> bool
    ensures { result ≡ spec.is_const word }
{
    matches!(word, SpecWord::Const)
}

/// Whether `const` stands among the specifiers (C11 6.7.3).
#[tactic(auto, unfolding(crate::specs::Specifiers::is_constant))]
pub fn is_constant(specifiers: &Spec) -> bool
    ensures { result ≡ spec.is_constant specifiers.now.words }
{
    for word in specifiers.words.as_slice() {
        if is_const(*word) {
            return true;
        }
    }
    false
}
