//! Tests on bytes, and how many that pass stand first.

ghost use Rattle.std.specs.Prelude.{◌≡◌, ◌+◌, ◌≤◌, ◌==◌, ◌&&◌, true, false, IfSome, length};
ghost use Rattle.std.specs.List.{prefix_len};
ghost use Rattle.c_lex.specs.Bytes.{begins_with, begins, is_blank, is_in_line, is_letter, is_word_byte, is_octal_digit, is_hexadecimal_digit, line_ends};
ghost use Rattle.c_lex.specs.Spellings.{begins_word, goes_on, is_digit, is_plain, is_hexadecimal};
ghost use Rattle.c_lex.specs.Tokens.{is_marker};
ghost use Rattle.c_lex.specs.inner.Reading.{inside_len, text_len, line_len, digits_len};

use fc_base::LiteralForm;

pub(crate) fn is_blank(in_note: bool, byte: u8) -> bool
    ensures { result ≡ is_blank in_note byte }
{
    byte == b' ' || (9 <= byte && byte <= 13) || (in_note && byte == b'@')
}

pub(crate) fn is_in_line(byte: u8) -> bool
    ensures { result ≡ is_in_line byte }
{
    !(byte == b'\n')
}

fn is_letter(byte: u8) -> bool
    ensures { result ≡ is_letter byte }
{
    byte.is_ascii_alphabetic() || byte == b'_'
}

pub(crate) fn is_word_byte(byte: u8) -> bool
    ensures { result ≡ is_word_byte byte }
{
    byte.is_ascii_alphanumeric() || byte == b'_'
}

/// Whether a word may begin so.
pub(crate) fn begins_word(in_note: bool, byte: u8) -> bool
    ensures { result ≡ begins_word in_note byte }
{
    is_letter(byte) || (in_note && byte == b'\\')
}

/// Whether a word that begins so may go on so.
fn goes_on(first: u8, byte: u8) -> bool
    ensures { result ≡ goes_on first byte }
{
    if first == b'\\' {
        byte.is_ascii_alphabetic()
    } else {
        is_word_byte(byte)
    }
}

fn is_octal_digit(byte: u8) -> bool
    ensures { result ≡ is_octal_digit byte }
{
    48 <= byte && byte <= 55
}

fn is_hexadecimal_digit(byte: u8) -> bool
    ensures { result ≡ is_hexadecimal_digit byte }
{
    byte.is_ascii_digit() || (97 <= byte && byte <= 102) || (65 <= byte && byte <= 70)
}

/// Whether the byte is a digit of an integer constant of this form.
pub(crate) fn is_digit(form: LiteralForm, byte: u8) -> bool
    ensures { result ≡ is_digit form byte }
{
    match form {
        LiteralForm::Hexadecimal => is_hexadecimal_digit(byte),
        LiteralForm::Octal => is_octal_digit(byte),
        LiteralForm::Decimal | LiteralForm::Character => byte.is_ascii_digit(),
    }
}

/// Whether the byte stands for itself in a character constant.
pub(crate) fn is_plain(byte: u8) -> bool
    ensures { result ≡ is_plain byte }
{
    32 <= byte && byte <= 126 && !(byte == b'\'') && !(byte == b'\\')
}

/// Whether the first byte is this one.
pub(crate) fn is_first(byte: u8, bytes: &[u8]) -> bool
    ensures value { result ≡ begins_with (λ b. b == byte) bytes.now }
    ensures within { result ≡ true → 1 ≤ length bytes.now }
{
    match bytes.split_first() {
        Some((first, _)) => *first == byte,
        None => false,
    }
}

/// Whether the first byte is one of words.
pub(crate) fn is_word_first(bytes: &[u8]) -> bool
    ensures { result ≡ begins_with is_word_byte bytes.now }
{
    match bytes.split_first() {
        Some((first, _)) => is_word_byte(*first),
        None => false,
    }
}

fn is_hexadecimal_first(bytes: &[u8]) -> bool
    ensures value { result ≡ begins_with is_hexadecimal_digit bytes.now }
{
    match bytes.split_first() {
        Some((first, _)) => is_hexadecimal_digit(*first),
        None => false,
    }
}

/// Whether a hexadecimal constant stands first.
pub(crate) fn is_hexadecimal(bytes: &[u8]) -> bool
    ensures value { result ≡ is_hexadecimal bytes.now }
    ensures within { result ≡ true → 2 ≤ length bytes.now }
{
    let Some((zero, more)) = bytes.split_first() else {
        return false;
    };
    let Some((x, rest)) = more.split_first() else {
        return false;
    };
    *zero == b'0' && (*x == b'x' || *x == b'X') && is_hexadecimal_first(rest)
}

/// Whether the bytes begin with this text.
pub(crate) fn begins(text: &[u8], bytes: &[u8]) -> bool
    ensures value { result ≡ begins text.now bytes.now }
    ensures within { result ≡ true → length text.now ≤ length bytes.now }
{
    let mut rest = bytes;
    for wanted in text {
        if !is_first(*wanted, rest) {
            return false;
        }
        let (_, more) = rest.split_at(1);
        rest = more;
    }
    true
}

/// How many bytes go on with a word that begins with `first`.
pub(crate) fn word_len(first: u8, bytes: &[u8]) -> usize
    ensures value { result ≡ prefix_len (goes_on first) bytes.now }
    ensures bound { result ≤ length bytes.now }
{
    let mut len = 0;
    for byte in bytes {
        if !goes_on(first, *byte) {
            return len;
        }
        len += 1;
    }
    len
}

/// How many digits of an integer constant of this form stand first.
#[tactic(auto, unfolding(crate::specs::inner::Reading::digits_len))]
pub(crate) fn digits_len(form: LiteralForm, bytes: &[u8]) -> usize
    ensures value { result ≡ digits_len form bytes.now }
    ensures bound { result ≤ length bytes.now }
{
    let mut len = 0;
    for byte in bytes {
        if !is_digit(form, *byte) {
            return len;
        }
        len += 1;
    }
    len
}

/// How many bytes stand before the end of the line.
pub(crate) fn line_len(bytes: &[u8]) -> usize
    ensures value { result ≡ line_len bytes.now }
    ensures bound { result ≤ length bytes.now }
{
    let mut len = 0;
    for byte in bytes {
        if !is_in_line(*byte) {
            return len;
        }
        len += 1;
    }
    len
}

/// Whether `*/` stands first.
fn is_close(first: u8, more: &[u8]) -> bool
    ensures value { result ≡ (first == 42 && begins_with (λ c. c == 47) more.now) }
    ensures within { result ≡ true → 1 ≤ length more.now }
{
    first == b'*' && is_first(b'/', more)
}

/// How many bytes stand before the first `*/`, if there is one.
pub(crate) fn inside_len(bytes: &[u8]) -> Option<usize>
    ensures value { result ≡ inside_len bytes.now }
    ensures bound { IfSome result (λ n. n + 2 ≤ length bytes.now) }
{
    let mut len = 0;
    let mut rest = bytes;
    'seeking: while let Some((first, more)) = rest.split_first() {
        if is_close(*first, more) {
            return Some(len);
        }
        len += 1;
        rest = more;
    }
    None
}

/// How many bytes stand before the closing quote of a string literal, if it is on this line.
pub(crate) fn text_len(bytes: &[u8]) -> Option<usize>
    ensures value { result ≡ text_len false bytes.now }
    ensures bound { IfSome result (λ n. n + 1 ≤ length bytes.now) }
{
    let mut len = 0;
    let mut escaped = false;
    for byte in bytes {
        if *byte == b'\n' {
            return None;
        }
        if !escaped && *byte == b'"' {
            return Some(len);
        }
        escaped = !escaped && *byte == b'\\';
        len += 1;
    }
    None
}

/// Whether a line marker goes on so after its `#`.
pub(crate) fn is_marker(in_note: bool, bytes: &[u8]) -> bool
    ensures { result ≡ is_marker in_note bytes.now }
{
    for byte in bytes {
        if byte.is_ascii_digit() {
            return true;
        }
        if !(is_in_line(*byte) && is_blank(in_note, *byte)) {
            return false;
        }
    }
    false
}

/// How many lines end in these bytes.
pub(crate) fn line_ends(bytes: &[u8]) -> usize
    ensures value { result ≡ line_ends bytes.now }
    ensures bound { result ≤ length bytes.now }
{
    let mut count = 0;
    for byte in bytes {
        if *byte == b'\n' {
            count += 1;
        }
    }
    count
}
