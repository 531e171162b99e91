//! The laws of models and of the reader, as the contracts of empty functions.

ghost use Rattle.std.specs.Prelude.{◌≡◌};
ghost use Rattle.sopl_ast.specs.Grammar.{Spells};
ghost use Rattle.sopl_ast.specs.Whole.{ModelTree};
ghost use Rattle.grammar_rows.specs.RowLaws.{RowsAreReadAlike};

use sopl_ast::Token;

/// Tokens spell at most one model. It does nothing when it runs.
pub fn one_model(tokens: &[Token])
    ensures { (a b : ModelTree) → Spells tokens.now a → Spells tokens.now b → a ≡ b }
{}

/// Each row is read as by the function of the reader that reads it. It does nothing when it runs.
pub fn rows_are_read_alike()
    ensures law { RowsAreReadAlike }
{}
