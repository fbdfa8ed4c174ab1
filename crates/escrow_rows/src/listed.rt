use escrow_num::Text;

/// A table as a store lists it. Its text isn't parsed.
#[derive(Debug, Drop)]
pub struct ListedTable {
    /// Its number.
    pub id: i64,
    /// Its name.
    pub name: Text,
    /// The text that defines it.
    pub text: Text,
}
