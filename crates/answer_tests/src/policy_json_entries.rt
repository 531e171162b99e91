//! Entries as they are printed.

use policy_json::entry_value;
use sopl_ast::Name;
use std::test::Fail;
use unfold_variables::Index;

#[test]
fn printed_entry(rt: HostRuntime) -> Result<(), Fail> {
    let alloc = rt.alloc();
    let name = Name::from_bytes(alloc, &[b'x'])?;
    let mut index = Index::new(alloc);
    index.push(1)?;
    index.push(-20)?;
    let value = entry_value(alloc, &name, &index, -3)?;
    assert_eq!(rt; value.to_string(alloc)?.as_str(), "[\"x\",[1,-20],-3]");
    Ok(())
}
