//! Tokens of C and of its annotations.

ghost use Rattle.std.specs.Prelude.{◌≡◌, ◌≤◌, length, true, false};
ghost use Rattle.c_lex.specs.Facts.{text_of, AreTokensOf, are_noted};
ghost use Rattle.c_lex.specs.Tokens.{Lexes};

use fc_base::{Line, LiteralForm, Span};
use sqlite_items::Items;

/// The tokens of a text, in its order.
pub type Tokens = Items<Token>;

/// A token, the bytes that it is, and the line that they begin on.
#[derive(Clone, Copy, Debug, PartialEq, Eq)]
pub struct Token {
    pub kind: TokenKind,
    pub span: Span,
    pub line: Line,
}

/// What a token is (C11 6.4; ACSL manual, lexical rules).
#[derive(Clone, Copy, Debug, PartialEq, Eq)]
pub enum TokenKind {
    /// A keyword or an identifier; in a note also a word that begins with `\`.
    Word(Word),
    /// An integer constant (C11 6.4.4.1).
    Number(Number),
    /// The value of a character constant (C11 6.4.4.4).
    Char(u8),
    /// A string literal (C11 6.4.5).
    Text,
    /// A punctuator (C11 6.4.6); in a note also `==>`, `<==>` and `..`.
    Punct(Punct),
    /// `/*@` or `//@`, which opens a note.
    NoteFrom,
    /// `*/` or the end of the line, which closes a note.
    NoteTo,
}

/// What a word is.
#[derive(Clone, Copy, Debug, PartialEq, Eq)]
pub enum Word {
    /// No keyword of C11; the word is the text of the token.
    Name,
    Keyword(Keyword),
}

/// A keyword (C11 6.4.1).
#[derive(Clone, Copy, Debug, PartialEq, Eq)]
pub enum Keyword {
    Auto,
    Break,
    Case,
    Char,
    Const,
    Continue,
    Default,
    Do,
    Double,
    Else,
    Enum,
    Extern,
    Float,
    For,
    Goto,
    If,
    Inline,
    Int,
    Long,
    Register,
    Restrict,
    Return,
    Short,
    Signed,
    Sizeof,
    Static,
    Struct,
    Switch,
    Typedef,
    Union,
    Unsigned,
    Void,
    Volatile,
    While,
    /// `_Alignas`
    Alignas,
    /// `_Alignof`
    Alignof,
    /// `_Atomic`
    Atomic,
    /// `_Bool`
    Bool,
    /// `_Complex`
    Complex,
    /// `_Generic`
    Generic,
    /// `_Imaginary`
    Imaginary,
    /// `_Noreturn`
    Noreturn,
    /// `_Static_assert`
    StaticAssert,
    /// `_Thread_local`
    ThreadLocal,
}

/// The value of an integer constant, and how it is written. `longs` is the number of `l` or `L` in its
/// suffix, at most two.
#[derive(Clone, Copy, Debug, PartialEq, Eq)]
pub struct Number {
    pub value: u128,
    pub form: LiteralForm,
    /// Whether the suffix has `u` or `U`.
    pub unsigned: bool,
    pub longs: u8,
}

/// A punctuator (C11 6.4.6; ACSL manual for those of notes).
#[derive(Clone, Copy, Debug, PartialEq, Eq)]
pub enum Punct {
    /// `[`
    BracketOpen,
    /// `]`
    BracketClose,
    /// `(`
    ParenOpen,
    /// `)`
    ParenClose,
    /// `{`
    BraceOpen,
    /// `}`
    BraceClose,
    /// `.`
    Dot,
    /// `->`
    Arrow,
    /// `++`
    PlusPlus,
    /// `--`
    MinusMinus,
    /// `&`
    Amp,
    /// `*`
    Star,
    /// `+`
    Plus,
    /// `-`
    Minus,
    /// `~`
    Tilde,
    /// `!`
    Bang,
    /// `/`
    Slash,
    /// `%`
    Percent,
    /// `<<`
    Shl,
    /// `>>`
    Shr,
    /// `<`
    Less,
    /// `>`
    Greater,
    /// `<=`
    LessEq,
    /// `>=`
    GreaterEq,
    /// `==`
    EqEq,
    /// `!=`
    BangEq,
    /// `^`
    Caret,
    /// `|`
    Bar,
    /// `&&`
    AmpAmp,
    /// `||`
    BarBar,
    /// `?`
    Question,
    /// `:`
    Colon,
    /// `;`
    Semicolon,
    /// `...`
    Ellipsis,
    /// `=`
    Equals,
    /// `*=`
    StarEq,
    /// `/=`
    SlashEq,
    /// `%=`
    PercentEq,
    /// `+=`
    PlusEq,
    /// `-=`
    MinusEq,
    /// `<<=`
    ShlEq,
    /// `>>=`
    ShrEq,
    /// `&=`
    AmpEq,
    /// `^=`
    CaretEq,
    /// `|=`
    BarEq,
    /// `,`
    Comma,
    /// `#`
    Hash,
    /// `##`
    HashHash,
    /// `<:`
    LessColon,
    /// `:>`
    ColonGreater,
    /// `<%`
    LessPercent,
    /// `%>`
    PercentGreater,
    /// `%:`
    PercentColon,
    /// `%:%:`
    PercentColonTwice,
    /// `==>`, in notes
    Implies,
    /// `<==>`, in notes
    Iff,
    /// `..`, in notes
    DotDot,
}

impl Token {
    /// The bytes of a token of this text.
    pub fn text(self, bytes: &[u8]) -> &[u8]
        requires in_order { self.span.from ≤ self.span.to }
        requires within { self.span.to ≤ length bytes.now }
        ensures { result.now ≡ text_of bytes.now self }
    {
        &bytes[self.span.from as usize..self.span.to as usize]
    }
}

/// Where the tokens of a text stand, and that there are at most as many as bytes. The function does nothing:
/// its contract is the law.
pub fn tokens_are_in_place(bytes: &[u8], tokens: &[Token])
    requires { Lexes bytes.now tokens.now }
    ensures in_place { AreTokensOf bytes.now 0 tokens.now }
    ensures noted { are_noted false tokens.now ≡ true }
    ensures few { length tokens.now ≤ length bytes.now }
{}
