//! Tables by roID: rows in ascending order, found by halving.
//!
//! A table is seen as the list of its rows.
#![tactic(auto)]

mod place;
mod row_change;
mod row_test;
mod rows;
mod table;

pub use place::is_same;
pub use row_change::RowChange;
pub use row_test::RowTest;
pub use table::OrderTable;
