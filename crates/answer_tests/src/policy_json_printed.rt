//! The policy of a small tree, as it is printed.

ghost use Rattle.std.specs.Prelude.{◌≡◌, IfOk};
ghost use Rattle.policy_json.specs.Samples.{decided, drawn, sample_decisions, sample_stochastics};

use policy_json::policy_value;
use sopl_ast::Name;
use sopl_scen::Tree;
use std::alloc::{AllocError, Global};
use std::test::Fail;
use unfold_variables::{DecisionItem, Index, StochItem, Weighted};

/// A decision from 0 to 5 with a name of one byte.
fn decision(alloc: Global, name: u8, stage: u32) -> Result<DecisionItem, AllocError>
    ensures { IfOk result (λ d. d ≡ decided name stage) }
{
    Ok(DecisionItem {
        name: Name::from_bytes(alloc, &[name])?,
        index: Index::new(alloc),
        lo: 0,
        hi: 5,
        stage,
    })
}

/// A stochastic variable with a name of one byte that is 1 or 3.
fn one_or_three(alloc: Global, name: u8, stage: u32) -> Result<StochItem, AllocError>
    ensures { IfOk result (λ s. s ≡ drawn name stage) }
{
    let mut values = Weighted::new(alloc);
    values.push((1, 1))?;
    values.push((3, 2))?;
    Ok(StochItem {
        name: Name::from_bytes(alloc, &[name])?,
        index: Index::new(alloc),
        values,
        stage,
    })
}

/// The policy of a point of these decisions and variables, as it is printed.
fn printed(
    alloc: Global,
    decisions: &[DecisionItem],
    stochs: &[StochItem],
    values: &[i64],
) -> Option<String>
    requires decisions { decisions.now ≡ sample_decisions }
    requires stochs { stochs.now ≡ sample_stochastics }
{
    let Ok(tree) = Tree::of(alloc, decisions, stochs, 0) else {
        return None;
    };
    if values.len() != tree.cells() as usize {
        return None;
    }
    let Ok(value) = policy_value(alloc, decisions, stochs, &tree, values) else {
        return None;
    };
    value.to_string(alloc).ok()
}

/// The decisions x and y.
fn decisions(alloc: Global) -> Result<Vec<DecisionItem>, AllocError>
    ensures { IfOk result (λ found. found.items ≡ sample_decisions) }
{
    let mut found = Vec::new(alloc);
    found.push(decision(alloc, b'x', 1)?)?;
    found.push(decision(alloc, b'y', 2)?)?;
    Ok(found)
}

/// The stochastic variables d and e.
fn stochastics(alloc: Global) -> Result<Vec<StochItem>, AllocError>
    ensures { IfOk result (λ found. found.items ≡ sample_stochastics) }
{
    let mut found = Vec::new(alloc);
    found.push(one_or_three(alloc, b'd', 1)?)?;
    found.push(one_or_three(alloc, b'e', 2)?)?;
    Ok(found)
}

#[test]
fn two_stages(rt: HostRuntime) -> Result<(), Fail> {
    let decisions = decisions(rt.alloc())?;
    let stochs = stochastics(rt.alloc())?;
    let Some(text) = printed(
        rt.alloc(),
        decisions.as_slice(),
        stochs.as_slice(),
        &[5, 0, 2],
    ) else {
        return Err(Fail::from("no policy"));
    };
    assert_eq!(rt;
        text.as_str(),
        "{\"decide\":[[\"x\",[],5]],\"next\":[{\"seen\":[[\"d\",[],1]],\"then\":{\"decide\":[[\"y\",[],0]],\"next\":[]}},{\"seen\":[[\"d\",[],3]],\"then\":{\"decide\":[[\"y\",[],2]],\"next\":[]}}]}"
    );
    Ok(())
}
