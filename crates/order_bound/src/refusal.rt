//! The line at which a table is refused.

ghost use Rattle.order_bound.specs.Refusals.{OneLineLaw};

/// A text that `check_table` refuses is refused at one line, and at no other, and it is never accepted as well.
pub fn tables_are_refused_at_one_line()
    ensures { OneLineLaw }
{}
