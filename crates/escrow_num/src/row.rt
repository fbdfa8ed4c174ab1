use crate::amount::Amount;
use crate::seq::Seq;
use crate::value::{RowName, Value};

/// A committed row.
#[derive(Debug, Drop)]
pub struct Row {
    /// Its table and its key.
    pub name: RowName,
    /// The committed amount of each RESERVABLE column, in column order.
    pub amounts: Seq<Amount>,
    /// The value of each other column but the key, in column order.
    pub plain: Seq<Value>,
}
