//! Names with their numbers.

use compile_names::Names;
use sopl_ast::Name;
use std::alloc::{AllocError, Global};

/// Whether these are the numbers of a name among three.
fn has_numbers(alloc: Global, name: &[u8], want: &[u32]) -> Result<bool, AllocError> {
    let first = Name::from_bytes(alloc, b"a")?;
    let second = Name::from_bytes(alloc, b"ab")?;
    let asked = Name::from_bytes(alloc, name)?;
    let names = Names::of(alloc, &[&first, &second, &first])?;
    Ok(names.numbers(&asked) == want)
}

#[test]
fn numbers_by_name(rt: HostRuntime) -> Result<(), AllocError> {
    let rows: [(&str, &[u8], &[u32]); 4] = [
        ("a name twice", b"a", &[0, 2]),
        ("a longer name", b"ab", &[1]),
        ("the end of a name", b"b", &[]),
        ("a name of no letter", b"", &[]),
    ];
    for (word, name, want) in &rows {
        assert!(rt; has_numbers(rt.alloc(), name, want)?, "{word}");
    }
    Ok(())
}
