//! Whether one holder's rows in a store's file keep the rules of sound tables: each test says so exactly. They are given rows that
//! could be read, and know no statement.
mod guarantees;
mod lines;
mod movements;
mod owners;

pub use guarantees::guarantees_are_in_place;
pub use lines::lines_are_in_place;
pub use movements::movements_are_in_place;
pub use owners::{codes_belong, lines_belong};
