//! The rows of tables: a word for what a row is about, a text, and what stands behind the arrow.

/// The word, the text and what is wanted of it, in a row.
pub fn parts(row: &str) -> (&str, &str, &str) {
    let (word, behind) = row.split_once(": ").unwrap_or(("", row));
    let (text, want) = behind.split_once(" -> ").unwrap_or((behind, ""));
    (word, text, want)
}
