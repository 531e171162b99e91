//! The laws, as the contracts of empty functions.

ghost use Rattle.parse_laws.specs.RefusalLaws.{OneRefusal, SomeModelGoesOn};

/// A text that has no tokens, or whose tokens spell no model, is refused by one code at one place. It does nothing when it runs.
pub fn one_refusal()
    ensures law { OneRefusal }
{}

/// Where a text is refused by 104, some model's tokens begin with those before the place, and no model's with them and the token there;
/// no text has two such places. It does nothing when it runs.
pub fn some_model_goes_on()
    ensures law { SomeModelGoesOn }
{}
