//! A connection that isn't taken for a desk.
use sqlite::Connection;
use sqlite_trees::store::Alter;
use td_store_check::OpenFault;

/// A connection that isn't taken for a desk, and why.
#[derive(Drop)]
pub struct Refused<S: Alter> {
    pub fault: OpenFault,
    pub connection: Connection<S>,
}
