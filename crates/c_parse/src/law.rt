//! The law of sizes.

ghost use Rattle.std.specs.Prelude.{◌≤◌, length};
ghost use Rattle.c_ast.specs.Weight.{weight_of_unit};
ghost use Rattle.c_parse.specs.Program.{IsUnit};

use c_ast::Unit;
use c_lex::Token;

/// The tree of a text weighs at most the number of its tokens. The function does nothing: its contract is
/// the law.
pub fn trees_are_small(bytes: &[u8], tokens: &[Token], unit: &Unit)
    requires { IsUnit bytes.now unit.now.items tokens.now }
    ensures { weight_of_unit unit.now ≤ length tokens.now }
{}
