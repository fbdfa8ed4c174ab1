//! Table definitions: the rules of CREATE TABLE, the catalog of a database's tables, and the
//! canonical text of a table. Also the row that an INSERT makes, and what an UPDATE asks of a row.
//!
//! Its main contract is that of [`define`]: it returns the table that a text defines, and refuses
//! the text only if it breaks a rule of definitions.
//!
//! Begin with [`TableDef`] and [`define`]. Then:
//!
//! - [`alter`] adds checks to a table or drops one, by the same rules.
//! - [`Catalog`] keeps tables in order of name, each with its number in the store and its number of
//!   rows.
//! - [`fit_row`] and [`plan_update`] refuse exactly what doesn't fit the table, before they take
//!   memory.
//! - [`values_of`] and [`row_of`] turn a row into its values and back.
//! - [`print_table`] writes the canonical text of a table. By the law of `escrow_recover`, the
//!   text is read back as the same table.
//!
//! A column's number is a whole number of units of 10^-scale, where the scale is that of the
//! column's type. Any other literal is refused; nothing is rounded.
#![tactic(auto)]

mod altered;
mod by_name;
mod catalog;
mod column;
mod copies;
mod counted_table;
mod definition;
mod fit;
mod items;
mod key;
pub mod laws;
mod lists;
mod literal;
mod plan;
mod print;
mod ranges;
mod row;
mod rules;
mod stored;
mod table;
mod values;

pub use altered::{alter, declared_place, with_check, without_check_at};
pub use by_name::find_by_name;
pub use catalog::Catalog;
pub use column::{Column, ColumnType};
pub use counted_table::CountedTable;
pub use definition::define;
pub use fit::fit_row;
pub use key::check_key;
pub use literal::{is_value, truncated_value, value_at};
pub use plan::{Plan, plan_update};
pub use print::print_table;
pub use row::row_of;
pub use rules::{names_of, reservable_names, reservable_scales, reservables, scales_of};
pub use stored::StoredTable;
pub use table::TableDef;
pub use values::values_of;
