//! Integer constants.

ghost use Rattle.std.specs.Prelude.{◌≡◌, ◌+◌, ◌≤◌, ◌<◌, IfSome, length, drop};
ghost use Rattle.c_lex.specs.Spellings.{digit, form_of, prefix_of, spoils};
ghost use Rattle.c_lex.specs.inner.Reading.{fitting, fitting_digit, shape_of, number_of, number_at, IsWithin, IsShapeWithin};

use crate::bytes::{begins, digits_len, is_first, is_hexadecimal, is_word_first};
use crate::piece::{Piece, Shape};
use crate::rows::first_row;
use crate::tables::SUFFIXES;
use crate::token::{Number, TokenKind};
use fc_base::LiteralForm;

/// No constant is this large.
const LIMIT: u128 = 0x8000_0000_0000_0000_0000_0000_0000_0000;

/// What a digit counts.
fn digit(byte: u8) -> u8
    ensures value { result ≡ digit byte }
{
    if byte <= 57 {
        byte.saturating_sub(48)
    } else if byte <= 70 {
        byte.saturating_sub(55)
    } else {
        byte.saturating_sub(87)
    }
}

/// The number with one more digit, if it is below the limit.
fn fitting_digit(form: LiteralForm, value: u128, byte: u8) -> Option<u128>
    ensures { result ≡ fitting_digit form value byte }
{
    let digit = u128::from(digit(byte));
    let next = match form {
        LiteralForm::Hexadecimal => {
            if value >= LIMIT / 16 {
                return None;
            }
            value * 16 + digit
        }
        LiteralForm::Octal => {
            if value >= LIMIT / 8 {
                return None;
            }
            value * 8 + digit
        }
        LiteralForm::Decimal | LiteralForm::Character => {
            if value >= LIMIT / 8 {
                return None;
            }
            value * 10 + digit
        }
    };
    if next < LIMIT { Some(next) } else { None }
}

/// The value of some digits, if it is below the limit.
fn fitting(form: LiteralForm, digits: &[u8]) -> Option<u128>
    ensures { result ≡ fitting form 0 digits.now }
{
    let mut value = 0;
    for byte in digits {
        value = fitting_digit(form, value, *byte)?;
    }
    Some(value)
}

/// The base of the constant that stands first.
#[tactic(auto, unfolding(crate::specs::Spellings::form_of))]
fn form_of(bytes: &[u8]) -> LiteralForm
    ensures value { result ≡ form_of bytes.now }
    ensures within { prefix_of result ≤ length bytes.now }
{
    if is_hexadecimal(bytes) {
        LiteralForm::Hexadecimal
    } else if is_first(b'0', bytes) {
        LiteralForm::Octal
    } else {
        LiteralForm::Decimal
    }
}

/// How many bytes stand before the digits.
fn prefix_len(form: LiteralForm) -> usize
    ensures { result ≡ prefix_of form }
{
    match form {
        LiteralForm::Hexadecimal => 2,
        LiteralForm::Octal | LiteralForm::Decimal | LiteralForm::Character => 0,
    }
}

/// The digits and the suffix of the constant that stands first.
#[tactic(auto, unfolding(crate::specs::inner::Reading::shape_of, crate::specs::Spellings::suffixes))]
fn shape_of(bytes: &[u8]) -> Option<Shape>
    ensures value { result ≡ shape_of bytes.now }
    ensures within { IfSome result (IsShapeWithin (length bytes.now)) }
{
    let form = form_of(bytes);
    let prefix = prefix_len(form);
    let (_, after) = bytes.split_at(prefix);
    let digits = digits_len(form, after);
    let (_, rest) = bytes.split_at(prefix + digits);
    let ((unsigned, longs), suffix) = first_row(false, &SUFFIXES, rest)?;
    Some(Shape {
        form,
        digits,
        unsigned,
        longs,
        len: prefix + digits + suffix,
    })
}

/// Whether a constant can't end here.
fn spoils(in_note: bool, rest: &[u8]) -> bool
    ensures { result ≡ spoils in_note rest.now }
{
    is_word_first(rest) || (begins(b".", rest) && !(in_note && begins(b"..", rest)))
}

/// The constant of this shape, if it may end there and is below the limit.
#[tactic(auto, unfolding(crate::specs::inner::Reading::number_of))]
fn number_of(in_note: bool, bytes: &[u8], shape: Shape) -> Piece
    requires { IsShapeWithin (length bytes.now) shape }
    ensures value { result ≡ number_of in_note bytes.now shape }
    ensures within { IsWithin (length bytes.now) result }
{
    let (_, rest) = bytes.split_at(shape.len);
    if spoils(in_note, rest) {
        return Piece::Bad(shape.len);
    }
    let (_, after) = bytes.split_at(prefix_len(shape.form));
    let (digits, _) = after.split_at(shape.digits);
    match fitting(shape.form, digits) {
        Some(value) => Piece::Token(
            TokenKind::Number(Number {
                value,
                form: shape.form,
                unsigned: shape.unsigned,
                longs: shape.longs,
            }),
            shape.len,
        ),
        None => Piece::Wide,
    }
}

/// The integer constant that stands first, where a digit does.
#[tactic(auto, unfolding(crate::specs::inner::Reading::number_at))]
pub(crate) fn number_at(in_note: bool, bytes: &[u8]) -> Piece
    ensures value { result ≡ number_at in_note bytes.now }
    ensures within { IsWithin (length bytes.now) result }
{
    match shape_of(bytes) {
        Some(shape) => number_of(in_note, bytes, shape),
        None => Piece::Bad(0),
    }
}
