//! The next token.

ghost use Rattle.std.specs.Prelude.{◌≡◌, ◌≤◌, ◌<◌, IfOk, length, ◌∷◌, []};
ghost use Rattle.grammar_forms.specs.Forms.{One};
ghost use Rattle.grammar_forms.specs.inner.Reading.{token};
ghost use Rattle.c_parse.specs.Grammar.{grammar};
ghost use Rattle.c_parse.specs.inner.Outcome.{Gives, IsDeeper};

use crate::class::{Class, class_at, is, is_one_of};
use crate::fault::Fault;
use c_lex::Token;

const MOST_NESTED: usize = 200;

/// A token of one of these classes.
pub(crate) fn take_one<'a>(
    classes: &[Class],
    tokens: &'a [Token],
) -> Result<(Token, &'a [Token]), Fault>
    ensures value { Gives (λ t. One t) result (token (grammar []) classes.now tokens.now) }
    ensures shorter { IfOk result (λ x. length x.1.now < length tokens.now) }
{
    let Some((first, rest)) = tokens.split_first() else {
        return Err(Fault::Unexpected(0));
    };
    if is_one_of(classes, class_at(tokens)) {
        Ok((*first, rest))
    } else {
        Err(Fault::Unexpected(tokens.len()))
    }
}

/// A token of this class.
pub(crate) fn take(class: Class, tokens: &[Token]) -> Result<(Token, &[Token]), Fault>
    ensures value { Gives (λ t. One t) result (token (grammar []) (class ∷ []) tokens.now) }
    ensures shorter { IfOk result (λ x. length x.1.now < length tokens.now) }
{
    let Some((first, rest)) = tokens.split_first() else {
        return Err(Fault::Unexpected(0));
    };
    if is(tokens, class) {
        Ok((*first, rest))
    } else {
        Err(Fault::Unexpected(tokens.len()))
    }
}

/// The depth inside one more nesting, which the first of these tokens opens.
pub(crate) fn deeper(depth: usize, tokens: &[Token]) -> Result<usize, Fault>
    requires { depth ≤ 200 }
    ensures { IsDeeper depth tokens.now result }
{
    if depth < MOST_NESTED {
        Ok(depth + 1)
    } else {
        Err(Fault::TooDeep(tokens.len()))
    }
}
