//! The law, as the contract of an empty function.

ghost use Rattle.parse_laws.specs.PrefixLaws.{PrefixesGoOn};

/// Tokens that go along the rows up to where they end are the beginning of some model's tokens. It does nothing when it runs.
pub fn prefixes_go_on()
    ensures law { PrefixesGoOn }
{}
