//! What the lists hold that no text fills yet.

use sopl_ast::Name;
use sopl_base::{Reason, Side, Step, Steps};
use sopl_unfold::{Env, Index};
use std::test::Fail;

#[test]
fn names(rt: HostRuntime) -> Result<(), Fail> {
    let mut name = Name::new(rt.alloc());
    for byte in [b'd', b'2'] {
        name.push(byte)?;
    }
    assert_eq!(rt; name.as_slice(), b"d2".as_slice());
    let mut env = Env::new(rt.alloc());
    env.push((name, 4))?;
    assert_eq!(rt; env.as_slice().len(), 1);
    Ok(())
}

#[test]
fn indices(rt: HostRuntime) -> Result<(), Fail> {
    let mut index = Index::new(rt.alloc());
    for number in [3, -5] {
        index.push(number)?;
    }
    assert_eq!(rt; index.as_slice(), [3, -5].as_slice());
    Ok(())
}

#[test]
fn steps_in_order(rt: HostRuntime) -> Result<(), Fail> {
    let mut steps = Steps::new(rt.alloc());
    for (cell, side, k) in [(0, Side::Le, 3), (7, Side::Ge, -1)] {
        steps.push(Step {
            reason: Reason::Bound,
            cell,
            side,
            k,
        })?;
    }
    assert_eq!(rt; steps.as_slice().len(), 2);
    assert_eq!(rt; steps.as_slice()[1].cell, 7);
    Ok(())
}
