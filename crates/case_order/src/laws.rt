//! Laws of the order.

ghost use Rattle.std.specs.Cmp.{IsTotalOrder};
ghost use Rattle.vfs_model.specs.Paths.{name_order};

use vfs_model::Case;

/// The order of names under a case is total.
pub fn order_is_total(case: Case)
    ensures { IsTotalOrder (name_order case) }
{}
