//! The laws of changes. Each is the contract of a function that does nothing.
ghost use Rattle.table_changes.specs.Laws.{SameWorldSameRows, SomeChangeIsNone, RowsGoAndCome};

/// A command that changes nothing of what is declared changes no row. Some `metric` does so.
pub fn no_change_no_rows()
    ensures none { SameWorldSameRows }
    ensures some { SomeChangeIsNone }
{}

/// After a change a bridge has the rows that it had and that don't go, and those that come, and no others.
pub fn rows_go_and_come()
    ensures { RowsGoAndCome }
{}
