//! Texts with their tokens, and texts that have none.

mod spellings;

use self::spellings::{KEYWORDS, PUNCTS};
use crate::{Keyword, LexFault, Number, Punct, Token, TokenKind, Word, tokens};
use fc_base::{Line, LiteralForm, Span};
use std::alloc::{AllocError, Global};
use std::test::Fail;

const MOST: usize = 4194304;

const NAME: TokenKind = TokenKind::Word(Word::Name);

/// A token's kind, its first byte, the byte after it, and its line.
type Row = (TokenKind, u32, u32, u32);

fn is_row(token: &Token, row: &Row) -> bool {
    let span = Span {
        from: row.1,
        to: row.2,
    };
    token.kind == row.0 && token.span == span && token.line == Line(row.3)
}

fn has(alloc: Global, text: &[u8], rows: &[Row]) -> Result<bool, LexFault> {
    if text.len() > MOST {
        return Ok(false);
    }
    let found = tokens(alloc, text)?;
    if found.len() != rows.len() {
        return Ok(false);
    }
    for (token, row) in found.as_slice().iter().zip(rows) {
        if !is_row(token, row) {
            return Ok(false);
        }
    }
    Ok(true)
}

/// Whether the first token of the text is these bytes.
fn begins_so(alloc: Global, text: &[u8], wanted: &[u8]) -> Result<bool, LexFault> {
    if text.len() > MOST {
        return Ok(false);
    }
    let found = tokens(alloc, text)?;
    match found.as_slice().split_first() {
        Some((token, _)) => Ok(token.text(text) == wanted),
        None => Ok(false),
    }
}

fn refuses(alloc: Global, text: &[u8], fault: LexFault) -> bool {
    if text.len() > MOST {
        return false;
    }
    match tokens(alloc, text) {
        Ok(_) => false,
        Err(found) => found == fault,
    }
}

const TEXTS: [(&[u8], &[Row]); 35] = [
    (b"", &[]),
    (b" \t\n\r\x0b\x0c", &[]),
    (
        b"int x_1;\n_y",
        &[
            (TokenKind::Word(Word::Keyword(Keyword::Int)), 0, 3, 1),
            (NAME, 4, 7, 1),
            (TokenKind::Punct(Punct::Semicolon), 7, 8, 1),
            (NAME, 9, 11, 2),
        ],
    ),
    (b"Int intx", &[(NAME, 0, 3, 1), (NAME, 4, 8, 1)]),
    (
        b"0 7 00 017",
        &[
            (
                TokenKind::Number(Number {
                    value: 0,
                    form: LiteralForm::Octal,
                    unsigned: false,
                    longs: 0,
                }),
                0,
                1,
                1,
            ),
            (
                TokenKind::Number(Number {
                    value: 7,
                    form: LiteralForm::Decimal,
                    unsigned: false,
                    longs: 0,
                }),
                2,
                3,
                1,
            ),
            (
                TokenKind::Number(Number {
                    value: 0,
                    form: LiteralForm::Octal,
                    unsigned: false,
                    longs: 0,
                }),
                4,
                6,
                1,
            ),
            (
                TokenKind::Number(Number {
                    value: 15,
                    form: LiteralForm::Octal,
                    unsigned: false,
                    longs: 0,
                }),
                7,
                10,
                1,
            ),
        ],
    ),
    (
        b"0x1F 0Xaf 0x0",
        &[
            (
                TokenKind::Number(Number {
                    value: 31,
                    form: LiteralForm::Hexadecimal,
                    unsigned: false,
                    longs: 0,
                }),
                0,
                4,
                1,
            ),
            (
                TokenKind::Number(Number {
                    value: 175,
                    form: LiteralForm::Hexadecimal,
                    unsigned: false,
                    longs: 0,
                }),
                5,
                9,
                1,
            ),
            (
                TokenKind::Number(Number {
                    value: 0,
                    form: LiteralForm::Hexadecimal,
                    unsigned: false,
                    longs: 0,
                }),
                10,
                13,
                1,
            ),
        ],
    ),
    (
        b"1u 1U 1l 1L 1ll 1LL",
        &[
            (
                TokenKind::Number(Number {
                    value: 1,
                    form: LiteralForm::Decimal,
                    unsigned: true,
                    longs: 0,
                }),
                0,
                2,
                1,
            ),
            (
                TokenKind::Number(Number {
                    value: 1,
                    form: LiteralForm::Decimal,
                    unsigned: true,
                    longs: 0,
                }),
                3,
                5,
                1,
            ),
            (
                TokenKind::Number(Number {
                    value: 1,
                    form: LiteralForm::Decimal,
                    unsigned: false,
                    longs: 1,
                }),
                6,
                8,
                1,
            ),
            (
                TokenKind::Number(Number {
                    value: 1,
                    form: LiteralForm::Decimal,
                    unsigned: false,
                    longs: 1,
                }),
                9,
                11,
                1,
            ),
            (
                TokenKind::Number(Number {
                    value: 1,
                    form: LiteralForm::Decimal,
                    unsigned: false,
                    longs: 2,
                }),
                12,
                15,
                1,
            ),
            (
                TokenKind::Number(Number {
                    value: 1,
                    form: LiteralForm::Decimal,
                    unsigned: false,
                    longs: 2,
                }),
                16,
                19,
                1,
            ),
        ],
    ),
    (
        b"1ul 1Lu 1ull 1LLU 0xaLLu 01uL",
        &[
            (
                TokenKind::Number(Number {
                    value: 1,
                    form: LiteralForm::Decimal,
                    unsigned: true,
                    longs: 1,
                }),
                0,
                3,
                1,
            ),
            (
                TokenKind::Number(Number {
                    value: 1,
                    form: LiteralForm::Decimal,
                    unsigned: true,
                    longs: 1,
                }),
                4,
                7,
                1,
            ),
            (
                TokenKind::Number(Number {
                    value: 1,
                    form: LiteralForm::Decimal,
                    unsigned: true,
                    longs: 2,
                }),
                8,
                12,
                1,
            ),
            (
                TokenKind::Number(Number {
                    value: 1,
                    form: LiteralForm::Decimal,
                    unsigned: true,
                    longs: 2,
                }),
                13,
                17,
                1,
            ),
            (
                TokenKind::Number(Number {
                    value: 10,
                    form: LiteralForm::Hexadecimal,
                    unsigned: true,
                    longs: 2,
                }),
                18,
                24,
                1,
            ),
            (
                TokenKind::Number(Number {
                    value: 1,
                    form: LiteralForm::Octal,
                    unsigned: true,
                    longs: 1,
                }),
                25,
                29,
                1,
            ),
        ],
    ),
    (
        b"170141183460469231731687303715884105727",
        &[(
            TokenKind::Number(Number {
                value: 170141183460469231731687303715884105727,
                form: LiteralForm::Decimal,
                unsigned: false,
                longs: 0,
            }),
            0,
            39,
            1,
        )],
    ),
    (
        b"0x7fffffffffffffffffffffffffffffff",
        &[(
            TokenKind::Number(Number {
                value: 170141183460469231731687303715884105727,
                form: LiteralForm::Hexadecimal,
                unsigned: false,
                longs: 0,
            }),
            0,
            34,
            1,
        )],
    ),
    (
        b"01777777777777777777777777777777777777777777",
        &[(
            TokenKind::Number(Number {
                value: 170141183460469231731687303715884105727,
                form: LiteralForm::Octal,
                unsigned: false,
                longs: 0,
            }),
            0,
            44,
            1,
        )],
    ),
    (
        b"'a' '\"' ' ' '~'",
        &[
            (TokenKind::Char(97), 0, 3, 1),
            (TokenKind::Char(34), 4, 7, 1),
            (TokenKind::Char(32), 8, 11, 1),
            (TokenKind::Char(126), 12, 15, 1),
        ],
    ),
    (
        b"'\\n' '\\t' '\\r' '\\0' '\\\\' '\\'' '\\\"'",
        &[
            (TokenKind::Char(10), 0, 4, 1),
            (TokenKind::Char(9), 5, 9, 1),
            (TokenKind::Char(13), 10, 14, 1),
            (TokenKind::Char(0), 15, 19, 1),
            (TokenKind::Char(92), 20, 24, 1),
            (TokenKind::Char(39), 25, 29, 1),
            (TokenKind::Char(34), 30, 34, 1),
        ],
    ),
    (
        b"\"\" \"a b\" \"\\\"\" \"\\\\\"",
        &[
            (TokenKind::Text, 0, 2, 1),
            (TokenKind::Text, 3, 8, 1),
            (TokenKind::Text, 9, 13, 1),
            (TokenKind::Text, 14, 18, 1),
        ],
    ),
    (
        b"\"/*\" \"//\"",
        &[(TokenKind::Text, 0, 4, 1), (TokenKind::Text, 5, 9, 1)],
    ),
    (
        b"a/* x\n*/b // c\nd",
        &[(NAME, 0, 1, 1), (NAME, 8, 9, 2), (NAME, 15, 16, 3)],
    ),
    (b"/**/a/***/b//", &[(NAME, 4, 5, 1), (NAME, 10, 11, 1)]),
    (
        b"a/ *b",
        &[
            (NAME, 0, 1, 1),
            (TokenKind::Punct(Punct::Slash), 1, 2, 1),
            (TokenKind::Punct(Punct::Star), 3, 4, 1),
            (NAME, 4, 5, 1),
        ],
    ),
    (
        b"a+++b---c",
        &[
            (NAME, 0, 1, 1),
            (TokenKind::Punct(Punct::PlusPlus), 1, 3, 1),
            (TokenKind::Punct(Punct::Plus), 3, 4, 1),
            (NAME, 4, 5, 1),
            (TokenKind::Punct(Punct::MinusMinus), 5, 7, 1),
            (TokenKind::Punct(Punct::Minus), 7, 8, 1),
            (NAME, 8, 9, 1),
        ],
    ),
    (
        b"<<<=..%:%",
        &[
            (TokenKind::Punct(Punct::Shl), 0, 2, 1),
            (TokenKind::Punct(Punct::LessEq), 2, 4, 1),
            (TokenKind::Punct(Punct::Dot), 4, 5, 1),
            (TokenKind::Punct(Punct::Dot), 5, 6, 1),
            (TokenKind::Punct(Punct::PercentColon), 6, 8, 1),
            (TokenKind::Punct(Punct::Percent), 8, 9, 1),
        ],
    ),
    (
        b"==>a<==>",
        &[
            (TokenKind::Punct(Punct::EqEq), 0, 2, 1),
            (TokenKind::Punct(Punct::Greater), 2, 3, 1),
            (NAME, 3, 4, 1),
            (TokenKind::Punct(Punct::LessEq), 4, 6, 1),
            (TokenKind::Punct(Punct::Equals), 6, 7, 1),
            (TokenKind::Punct(Punct::Greater), 7, 8, 1),
        ],
    ),
    (b"# 1 \"f.c\" /*\nx", &[(NAME, 13, 14, 2)]),
    (
        b" \t#12\n/* */#  3\n;",
        &[(TokenKind::Punct(Punct::Semicolon), 16, 17, 3)],
    ),
    (
        b"/*\n*/# 1\n;",
        &[(TokenKind::Punct(Punct::Semicolon), 9, 10, 3)],
    ),
    (
        b"a # ##\n#1",
        &[
            (NAME, 0, 1, 1),
            (TokenKind::Punct(Punct::Hash), 2, 3, 1),
            (TokenKind::Punct(Punct::HashHash), 4, 6, 1),
        ],
    ),
    (
        b"/*@*/",
        &[(TokenKind::NoteFrom, 0, 3, 1), (TokenKind::NoteTo, 3, 5, 1)],
    ),
    (
        b"//@",
        &[(TokenKind::NoteFrom, 0, 3, 1), (TokenKind::NoteTo, 3, 3, 1)],
    ),
    (
        b"//@\nx",
        &[
            (TokenKind::NoteFrom, 0, 3, 1),
            (TokenKind::NoteTo, 3, 3, 1),
            (NAME, 4, 5, 2),
        ],
    ),
    (
        b"//@ a\r\nb",
        &[
            (TokenKind::NoteFrom, 0, 3, 1),
            (NAME, 4, 5, 1),
            (TokenKind::NoteTo, 6, 6, 1),
            (NAME, 7, 8, 2),
        ],
    ),
    (
        b"/*@ \\old\n @ x*/y",
        &[
            (TokenKind::NoteFrom, 0, 3, 1),
            (NAME, 4, 8, 1),
            (NAME, 12, 13, 2),
            (TokenKind::NoteTo, 13, 15, 2),
            (NAME, 15, 16, 2),
        ],
    ),
    (
        b"/*@a==>b<==>c*/",
        &[
            (TokenKind::NoteFrom, 0, 3, 1),
            (NAME, 3, 4, 1),
            (TokenKind::Punct(Punct::Implies), 4, 7, 1),
            (NAME, 7, 8, 1),
            (TokenKind::Punct(Punct::Iff), 8, 12, 1),
            (NAME, 12, 13, 1),
            (TokenKind::NoteTo, 13, 15, 1),
        ],
    ),
    (
        b"/*@1..2...3 .. .*/",
        &[
            (TokenKind::NoteFrom, 0, 3, 1),
            (
                TokenKind::Number(Number {
                    value: 1,
                    form: LiteralForm::Decimal,
                    unsigned: false,
                    longs: 0,
                }),
                3,
                4,
                1,
            ),
            (TokenKind::Punct(Punct::DotDot), 4, 6, 1),
            (
                TokenKind::Number(Number {
                    value: 2,
                    form: LiteralForm::Decimal,
                    unsigned: false,
                    longs: 0,
                }),
                6,
                7,
                1,
            ),
            (TokenKind::Punct(Punct::Ellipsis), 7, 10, 1),
            (
                TokenKind::Number(Number {
                    value: 3,
                    form: LiteralForm::Decimal,
                    unsigned: false,
                    longs: 0,
                }),
                10,
                11,
                1,
            ),
            (TokenKind::Punct(Punct::DotDot), 12, 14, 1),
            (TokenKind::Punct(Punct::Dot), 15, 16, 1),
            (TokenKind::NoteTo, 16, 18, 1),
        ],
    ),
    (
        b"//@ // /* x",
        &[
            (TokenKind::NoteFrom, 0, 3, 1),
            (TokenKind::Punct(Punct::Slash), 4, 5, 1),
            (TokenKind::Punct(Punct::Slash), 5, 6, 1),
            (TokenKind::Punct(Punct::Slash), 7, 8, 1),
            (TokenKind::Punct(Punct::Star), 8, 9, 1),
            (NAME, 10, 11, 1),
            (TokenKind::NoteTo, 11, 11, 1),
        ],
    ),
    (
        b"/*@ # ## a\n@#1 */b",
        &[
            (TokenKind::NoteFrom, 0, 3, 1),
            (TokenKind::Punct(Punct::Hash), 4, 5, 1),
            (TokenKind::Punct(Punct::HashHash), 6, 8, 1),
            (NAME, 9, 10, 1),
            (TokenKind::NoteTo, 15, 17, 2),
            (NAME, 17, 18, 2),
        ],
    ),
    (
        b"/*@ \\a1 x**/",
        &[
            (TokenKind::NoteFrom, 0, 3, 1),
            (NAME, 4, 6, 1),
            (
                TokenKind::Number(Number {
                    value: 1,
                    form: LiteralForm::Decimal,
                    unsigned: false,
                    longs: 0,
                }),
                6,
                7,
                1,
            ),
            (NAME, 8, 9, 1),
            (TokenKind::Punct(Punct::Star), 9, 10, 1),
            (TokenKind::NoteTo, 10, 12, 1),
        ],
    ),
];

const REFUSALS: [(&[u8], LexFault); 54] = [
    (b"a @", LexFault::BadByte(2)),
    (b"a\\b", LexFault::BadByte(1)),
    (b"$", LexFault::BadByte(0)),
    (b"`", LexFault::BadByte(0)),
    (b"\x7f", LexFault::BadByte(0)),
    (b"\x00", LexFault::BadByte(0)),
    (b"0x", LexFault::BadByte(1)),
    (b"0xg", LexFault::BadByte(1)),
    (b"08", LexFault::BadByte(1)),
    (b"078", LexFault::BadByte(2)),
    (b"12ab", LexFault::BadByte(2)),
    (b"12_", LexFault::BadByte(2)),
    (b"1uu", LexFault::BadByte(2)),
    (b"1lL", LexFault::BadByte(2)),
    (b"1lul", LexFault::BadByte(3)),
    (b"1lll", LexFault::BadByte(3)),
    (b"1.5", LexFault::BadByte(1)),
    (b"1..2", LexFault::BadByte(1)),
    (b"0x1u.", LexFault::BadByte(4)),
    (
        b"x 999999999999999999999999999999999999999999a",
        LexFault::BadByte(44),
    ),
    (b"/*@1. */", LexFault::BadByte(4)),
    (b"/*@1.", LexFault::OpenComment(0)),
    (
        b"170141183460469231731687303715884105728",
        LexFault::LiteralTooWide(0),
    ),
    (
        b" 0x80000000000000000000000000000000u",
        LexFault::LiteralTooWide(1),
    ),
    (
        b"02000000000000000000000000000000000000000000",
        LexFault::LiteralTooWide(0),
    ),
    (b"''", LexFault::BadByte(0)),
    (b"'ab'", LexFault::BadByte(0)),
    (b"'''", LexFault::BadByte(0)),
    (b"'\\x'", LexFault::BadByte(0)),
    (b"'\\'", LexFault::BadByte(0)),
    (b"'\n'", LexFault::BadByte(0)),
    (b"'\x1f'", LexFault::BadByte(0)),
    (b"'", LexFault::BadByte(0)),
    (b"\"abc", LexFault::BadByte(0)),
    (b"\"a\n\"", LexFault::BadByte(0)),
    (b"\"a\\\n\"", LexFault::BadByte(0)),
    (b"\"a\\\"", LexFault::BadByte(0)),
    (b"a /* b", LexFault::OpenComment(2)),
    (b"/*/", LexFault::OpenComment(0)),
    (b"/*@ @", LexFault::OpenComment(0)),
    (b"/*@/", LexFault::OpenComment(0)),
    (b"/*@ \"x */", LexFault::BadByte(4)),
    (b"#", LexFault::Directive(Line(1))),
    (b"#define X", LexFault::Directive(Line(1))),
    (b"a\n #include", LexFault::Directive(Line(2))),
    (b"\n/* \n */ # x 1", LexFault::Directive(Line(3))),
    (b"#\n1", LexFault::Directive(Line(1))),
    (b"/*@ a\n @ # b */", LexFault::Directive(Line(2))),
    (b"/*\n*/\n#", LexFault::Directive(Line(3))),
    (b"//@ \\1", LexFault::BadByte(4)),
    (b"//@ \\", LexFault::BadByte(4)),
    (b"//@ \\_", LexFault::BadByte(4)),
    (b"//@ a $", LexFault::BadByte(6)),
    (b"@ /*", LexFault::BadByte(0)),
];

#[test]
fn texts_have_these_tokens(rt: HostRuntime) -> Result<(), Fail> {
    for (text, rows) in &TEXTS {
        let holds = has(rt.alloc(), text, rows)?;
        assert!(rt; holds);
    }
    Ok(())
}

#[test]
fn a_token_has_its_bytes(rt: HostRuntime) -> Result<(), Fail> {
    let holds = begins_so(rt.alloc(), b" /* */ 0x1Fu;", b"0x1Fu")?;
    assert!(rt; holds);
    let holds = begins_so(rt.alloc(), b"\n\"a\\\"b\"c", b"\"a\\\"b\"")?;
    assert!(rt; holds);
    assert!(rt; LexFault::from(AllocError) == LexFault::Memory);
    Ok(())
}

#[test]
fn faults_are_the_first_with_their_place(rt: HostRuntime) {
    for (text, fault) in &REFUSALS {
        let holds = refuses(rt.alloc(), text, *fault);
        assert!(rt; holds);
    }
}

/// The spelling between blanks is this token alone.
fn is_alone(alloc: Global, spelling: &[u8], kind: TokenKind) -> Result<bool, Fail> {
    let mut text = Vec::from_slice(alloc, b"; ")?;
    text.extend_from_slice(spelling)?;
    text.extend_from_slice(b" ")?;
    if spelling.len() > 99 {
        return Ok(false);
    }
    let len = spelling.len() as u32;
    let semicolon = TokenKind::Punct(Punct::Semicolon);
    Ok(has(
        alloc,
        text.as_slice(),
        &[(semicolon, 0, 1, 1), (kind, 2, 2 + len, 1)],
    )?)
}

#[test]
fn each_punctuator_and_keyword_is_a_token(rt: HostRuntime) -> Result<(), Fail> {
    for (spelling, punct) in &PUNCTS {
        let holds = is_alone(rt.alloc(), spelling, TokenKind::Punct(*punct))?;
        assert!(rt; holds);
    }
    for (spelling, keyword) in &KEYWORDS {
        let holds = is_alone(
            rt.alloc(),
            spelling,
            TokenKind::Word(Word::Keyword(*keyword)),
        )?;
        assert!(rt; holds);
    }
    Ok(())
}

#[test]
fn a_word_has_at_most_256_bytes(rt: HostRuntime) -> Result<(), Fail> {
    let most = vec![in rt.alloc(); b'x'; 256]?;
    let holds = has(rt.alloc(), most.as_slice(), &[(NAME, 0, 256, 1)])?;
    assert!(rt; holds);
    let more = vec![in rt.alloc(); b'x'; 257]?;
    let holds = refuses(rt.alloc(), more.as_slice(), LexFault::NameTooLong(0));
    assert!(rt; holds);
    Ok(())
}
