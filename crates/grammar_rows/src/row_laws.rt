//! The laws, as the contracts of empty functions.

ghost use Rattle.grammar_rows.specs.RowLaws.{RowsPass, ReadRowsAreSpelled, SpelledRowsAreRead, RowsMayBeMissing, RowsTakeTokens};
ghost use Rattle.grammar_rows.specs.WrongRows.{WrongRowsFail};
ghost use Rattle.grammar_rows.specs.RowLaws.{RowsHaveOneValue, RowsAreReadByKinds, RowPrefixesGoOn, RowPrefixesAreClosed, TokensEndInRows};

/// Each row passes the test. It does nothing when it runs.
pub fn rows_pass()
    ensures law { RowsPass }
{}

/// Three rows that are no good do not pass: two alternatives that begin alike, a list without marks between its items, and a `sum` whose
/// body does not run to the end of its product. It does nothing when it runs.
pub fn wrong_rows_fail()
    ensures law { WrongRowsFail }
{}

/// What is read of a row is spelled. It does nothing when it runs.
pub fn read_rows_are_spelled()
    ensures law { ReadRowsAreSpelled }
{}

/// What is spelled of a row is read, where nothing stands behind it that goes on with it. It does nothing when it runs.
pub fn spelled_rows_are_read()
    ensures law { SpelledRowsAreRead }
{}

/// Where tokens may end too early and there are none, some value of each row is read. It does nothing when it runs.
pub fn rows_may_be_missing()
    ensures law { RowsMayBeMissing }
{}

/// A row takes a token with which it starts, or none where it may have none, or all of it is missing. It does nothing when it runs.
pub fn rows_take_tokens()
    ensures law { RowsTakeTokens }
{}

/// Tokens spell one value of a row at most, however deep they nest, where the row ends with the tokens. It does nothing when it runs.
pub fn rows_have_one_value()
    ensures law { RowsHaveOneValue }
{}

/// Reading a row goes by the tokens that it takes and the kind of the next one. It does nothing when it runs.
pub fn rows_are_read_by_kinds()
    ensures law { RowsAreReadByKinds }
{}

/// Tokens that go along a row up to where they end are the beginning of what spells it. It does nothing when it runs.
pub fn row_prefixes_go_on()
    ensures law { RowPrefixesGoOn }
{}

/// A prefix of a prefix of a model is one. It does nothing when it runs.
pub fn row_prefixes_are_closed()
    ensures law { RowPrefixesAreClosed }
{}

/// Tokens spell a model, or they are refused at a place. It does nothing when it runs.
pub fn tokens_end_in_rows()
    ensures law { TokensEndInRows }
{}
