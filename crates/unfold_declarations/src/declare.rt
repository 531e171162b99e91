//! What declarations of constants, ranges and sets add to a table.

ghost use Rattle.std.specs.Prelude.{◌≡◌, ◌∷◌, [], ◌++◌, None, IfOk, OnOk, OnErr};
ghost use Rattle.sopl_ast.specs.Arrays.{dimensions_of};
ghost use Rattle.sopl_ast.specs.Constants.{value_or_zero};
ghost use Rattle.sopl_ast.specs.Declarations.{constants_of, int_events, set_events, set_of, values_from};
ghost use Rattle.sopl_ast.specs.Inits.{init_tree};
ghost use Rattle.sopl_ast.specs.Known.{Between, Listed};
ghost use Rattle.sopl_ast.specs.Lists.{trees};
ghost use Rattle.sopl_ast.specs.UnfoldEvents.{range_events};
ghost use Rattle.sopl_ast.specs.Tree.{Ends};
ghost use Rattle.unfold_tables.specs.Tables.{table_known, elements_in};
ghost use Rattle.unfold_tables.specs.Walks.{Walks};

use crate::elements::entries;
use crate::sets::set_numbers;
use sopl_ast::{Dim, Expr, Init, Name};
use sopl_base::Fault;
use std::alloc::Global;
use unfold_constants::ConstantScope;
use unfold_tables::{Count, Elements, Ends as RangeEnds, NumberSet, Table};

/// Enters the elements of a constant.
pub fn declare_constant(
    alloc: Global,
    table: &mut Table,
    count: &mut Count,
    name: &Name,
    dims: &[Dim],
    init: &Init,
) -> Result<(), Fault>
    ensures met { Walks count.old.counted count.new.counted (int_events (table_known table.old) dims.now (init_tree init.now)) result }
    ensures declared { OnOk result (table_known table.new ≡ record (table_known table.old) {
      constants = (table_known table.old).constants ++ constants_of (table_known table.old) name.now dims.now (init_tree init.now);
    }) }
    ensures kept { OnErr result (table_known table.new ≡ table_known table.old) }
{
    let found = constant_entries(alloc, table, count, dims, init)?;
    table.add_constant(name, found)?;
    Ok(())
}

/// The elements of a constant.
fn constant_entries(
    alloc: Global,
    table: &Table,
    count: &mut Count,
    dims: &[Dim],
    init: &Init,
) -> Result<Elements, Fault>
    ensures met { Walks count.old.counted count.new.counted
        (int_events (table_known table.now) dims.now (init_tree init.now)) result }
    ensures values { IfOk result (λ found.
        elements_in found ≡ values_from (table_known table.now) (dimensions_of (table_known table.now) dims.now) (init_tree init.now)) }
{
    let known = ConstantScope::new(alloc, table);
    entries(alloc, &known, count, dims, init)
}

/// Enters a range, by its two ends.
pub fn declare_range(
    alloc: Global,
    table: &mut Table,
    count: &mut Count,
    name: &Name,
    lo: &Expr,
    hi: &Expr,
) -> Result<(), Fault>
    ensures met { Walks count.old.counted count.new.counted (range_events (table_known table.old) None (Ends lo.now hi.now)) result }
    ensures declared { OnOk result (table_known table.new ≡ record (table_known table.old) {
      sets = (table_known table.old).sets ++ (record {
        name = name.now;
        numbers = Between (value_or_zero (table_known table.old) lo.now) (value_or_zero (table_known table.old) hi.now);
      }) ∷ [];
    }) }
    ensures kept { OnErr result (table_known table.new ≡ table_known table.old) }
{
    let ends = range_ends(alloc, table, count, lo, hi)?;
    table.add_set(name, NumberSet::Between(ends))?;
    Ok(())
}

/// The ends of a range.
fn range_ends(
    alloc: Global,
    table: &Table,
    count: &mut Count,
    lo: &Expr,
    hi: &Expr,
) -> Result<RangeEnds, Fault>
    ensures met { Walks count.old.counted count.new.counted (range_events (table_known table.now) None (Ends lo.now hi.now)) result }
    ensures lower { IfOk result (λ ends. ends.lo ≡ value_or_zero (table_known table.now) lo.now) }
    ensures upper { IfOk result (λ ends. ends.hi ≡ value_or_zero (table_known table.now) hi.now) }
{
    let known = ConstantScope::new(alloc, table);
    known.between(count, lo, hi)
}

/// Enters a set, as its numbers in ascending order.
pub fn declare_set(
    alloc: Global,
    table: &mut Table,
    count: &mut Count,
    name: &Name,
    elements: &[Expr],
) -> Result<(), Fault>
    ensures met { Walks count.old.counted count.new.counted (set_events (table_known table.old) (trees elements.now)) result }
    ensures declared { OnOk result (table_known table.new ≡ record (table_known table.old) {
      sets = (table_known table.old).sets ++ (record {
        name = name.now;
        numbers = Listed (set_of (table_known table.old) (trees elements.now));
      }) ∷ [];
    }) }
    ensures kept { OnErr result (table_known table.new ≡ table_known table.old) }
{
    let numbers = element_numbers(alloc, table, count, elements)?;
    table.add_set(name, NumberSet::Listed(numbers))?;
    Ok(())
}

/// The numbers of a set.
fn element_numbers(
    alloc: Global,
    table: &Table,
    count: &mut Count,
    elements: &[Expr],
) -> Result<Vec<i64>, Fault>
    ensures met { Walks count.old.counted count.new.counted
        (set_events (table_known table.now) (trees elements.now)) result }
    ensures numbers { IfOk result (λ numbers. numbers.items ≡ set_of (table_known table.now) (trees elements.now)) }
{
    let known = ConstantScope::new(alloc, table);
    set_numbers(alloc, &known, count, elements)
}
