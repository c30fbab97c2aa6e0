//! The next token.

ghost use Rattle.std.specs.Prelude.{◌≡◌, ◌≤◌, ◌<◌, IfOk, length, ◌∷◌, []};
ghost use Rattle.grammar_forms.specs.Forms.{One};
ghost use Rattle.grammar_forms.specs.inner.Reading.{token};
ghost use Rattle.c_parse.specs.inner.Outcome.{IsDeeper};
ghost use Rattle.acsl_read.specs.Grammar.{grammar};
ghost use Rattle.acsl_read.specs.inner.Outcome.{Gives};

use crate::class::{Class, class_at, is, is_one_of};
use c_lex::Token;
use c_parse::Fault;

const MOST_NESTED: usize = 200;

/// A token of one of these classes.
pub(crate) fn take_one<'a>(
    bytes: &[u8],
    classes: &[Class],
    tokens: &'a [Token],
) -> Result<(Token, &'a [Token]), Fault>
    ensures value { Gives (λ t. One t) result (token (grammar bytes.now) classes.now tokens.now) }
    ensures shorter { IfOk result (λ x. length x.1.now < length tokens.now) }
{
    let Some((first, rest)) = tokens.split_first() else {
        return Err(Fault::Unexpected(0));
    };
    if is_one_of(classes, class_at(bytes, tokens)) {
        Ok((*first, rest))
    } else {
        Err(Fault::Unexpected(tokens.len()))
    }
}

/// A token of this class.
pub(crate) fn take<'a>(
    bytes: &[u8],
    class: Class,
    tokens: &'a [Token],
) -> Result<(Token, &'a [Token]), Fault>
    ensures value { Gives (λ t. One t) result (token (grammar bytes.now) (class ∷ []) tokens.now) }
    ensures shorter { IfOk result (λ x. length x.1.now < length tokens.now) }
{
    let Some((first, rest)) = tokens.split_first() else {
        return Err(Fault::Unexpected(0));
    };
    if is(bytes, tokens, class) {
        Ok((*first, rest))
    } else {
        Err(Fault::Unexpected(tokens.len()))
    }
}

/// The depth inside one more nesting, which the first of these tokens opens.
pub(crate) fn deeper(depth: usize, tokens: &[Token]) -> Result<usize, Fault>
    requires { depth ≤ 200 }
    ensures { IsDeeper depth tokens.now result }
{
    if depth < MOST_NESTED {
        Ok(depth + 1)
    } else {
        Err(Fault::TooDeep(tokens.len()))
    }
}
