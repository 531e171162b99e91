//! What is read of bytes is what they are the text of, and nothing else is.

ghost use Rattle.log_tree.specs.ReadingLaws.{ReadingsAreTexts, ReadingsAreUnique, TextsAreRead};

/// What is read is the text of rows in order, none of which lies too deep.
pub fn readings_are_texts()
    ensures law { ReadingsAreTexts }
{}

/// The text of rows in order, none of which lies too deep, is read as these rows.
pub fn texts_are_read()
    ensures law { TextsAreRead }
{}

/// Bytes are read in one way at most.
pub fn readings_are_unique()
    ensures law { ReadingsAreUnique }
{}
