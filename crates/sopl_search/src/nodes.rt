//! What an open node tells of itself.

ghost use Rattle.std.specs.Prelude.{◌≡◌, ◌<◌, ◌≤◌, ◌^◌, List};
ghost use Rattle.box_problem.specs.Box.{Box};
ghost use Rattle.log_rows.specs.Rows.{depth_at};
ghost use Rattle.log_rows.specs.declared.rows.Row.{Row};
ghost use Rattle.sopl_search.specs.Frontiers.{IsSplitRow};
ghost use Rattle.sopl_search.specs.Lines.{cell_above, order_key, parent_above, side_key, split_above};

use log_rows::Parent;
use open_nodes::OpenNode;
use sopl_base::Side;

/// The parent of an open node.
pub(crate) fn parent_of(node: &OpenNode) -> Option<Parent>
    ensures { result ≡ parent_above node.now }
{
    match &node.below {
        Some(split) => Some(Parent {
            node: split.node,
            side: node.side,
        }),
        None => None,
    }
}

/// The cell that the parent of an open node cut.
pub(crate) fn cell_of(node: &OpenNode) -> Option<u32>
    ensures { result ≡ cell_above node.now }
{
    match &node.below {
        Some(split) => Some(split.cut.cell),
        None => None,
    }
}

/// How many splits are above an open node.
pub(crate) fn depth_of(node: &OpenNode) -> u64
    requires shallow { (rows : List Row) × IsSplitRow rows (split_above node.now) × (depth_at rows (parent_above node.now) ≤ 1536) }
    ensures depth { (rows : List Row) → IsSplitRow rows (split_above node.now) → result ≡ depth_at rows (parent_above node.now) }
{
    match &node.below {
        Some(split) => split.depth + 1,
        None => 0,
    }
}

/// The place of a side among the two of a split.
fn side_place(side: Side) -> u128
    ensures { result ≡ side_key side }
{
    match side {
        Side::Le => 0,
        Side::Ge => 1,
    }
}

/// A number by which open nodes are sorted.
pub(crate) fn key_of(node: &OpenNode) -> u128
    ensures { result ≡ order_key node.now }
{
    match &node.below {
        Some(split) => 2 * u128::from(split.node) + side_place(node.side),
        None => 0,
    }
}
