//! What the verdict on a command needs of its owner's rows, beside the holder's own row.
use crate::lines::Lines;
use td_base::{Grn, Lrn, Mrn};

/// The rows of a command's owner that the verdict asks for. Who loads them matches these shapes and no
/// commands.
#[derive(Clone, Copy, Debug)]
pub enum Needs<'a> {
    /// None.
    Nothing,
    /// The movement with an LRN, and the guarantees of lines.
    Lodging(Lrn, &'a Lines),
    /// The movement with an MRN, with its lines.
    Movement(Mrn),
    /// The movement with an MRN, without its lines.
    Status(Mrn),
    /// The movement with an MRN, with its lines, their guarantees, and the amounts in use on them.
    Release(Mrn),
    /// Of all movements, what a list shows: MRN, LRN and state.
    AllMovements,
    /// The guarantee with a GRN, and the amount in use on it.
    Guarantee(Grn),
    /// All guarantees, and the amounts in use on them.
    AllGuarantees,
}
