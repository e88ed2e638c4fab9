use crate::listed::Listed;
use crate::stage::Stage;

/// An item on its way.
#[derive(Debug, Drop)]
pub struct Transfer {
    /// As it was listed.
    pub item: Listed,
    /// How far it has come.
    pub stage: Stage,
}
