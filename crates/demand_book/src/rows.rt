//! Rows of users.

use item_list::ItemList;
use karma_rule::Row;

/// Rows of users, in the order of their numbers. Contracts see the list of them.
pub type Rows = ItemList<Row>;
