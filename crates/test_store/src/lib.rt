//! Examples of the calls over a store in memory, each worked by hand: statements, the tables, what is read of them and
//! written into them; and runs of a desk over one. The crate has tests alone: for its tests a crate is proved again,
//! whole, and the database is compiled for each; these need none of their crates' private names.
#![tactic(auto)]

#[cfg(test)]
mod changes;
#[cfg(test)]
mod codes;
#[cfg(test)]
mod desks;
#[cfg(test)]
mod equal_schemas;
#[cfg(test)]
mod examples;
#[cfg(test)]
mod guarantees;
#[cfg(test)]
mod holders;
#[cfg(test)]
mod lines;
#[cfg(test)]
mod movements;
#[cfg(test)]
mod needs;
#[cfg(test)]
mod parts;
#[cfg(test)]
mod schema;
#[cfg(test)]
mod statements;
#[cfg(test)]
mod table_model;
