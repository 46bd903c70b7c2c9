//! Columns, references, tables, indexes and schemas.
ghost use Rattle.std.specs.Prelude.{◌≡◌, IsTrue};
ghost use Rattle.same_schema.specs.Halves.{HaveSameColumns, HaveSameFirst, HaveSameRules};

use crate::same::Same;
use sqlite_schema::schema::{Column, Index, Reference, Schema, Stamps, Table, View};
use sqlite_value::value::Bytes;

impl Same for Option<Bytes> {
    fn is_same(&self, other: &Option<Bytes>) -> bool {
        match (self, other) {
            (None, None) => true,
            (Some(name), Some(named)) => name.is_same(named),
            _ => false,
        }
    }
}

impl Same for Column {
    fn is_same(&self, other: &Column) -> bool {
        self.name.is_same(&other.name)
            && self.kind == other.kind
            && self.is_strict == other.is_strict
            && self.not_null == other.not_null
            && self.default.is_same(&other.default)
            && self.collation == other.collation
    }
}

impl Same for Reference {
    fn is_same(&self, other: &Reference) -> bool {
        self.columns.is_same(&other.columns)
            && self.parent.is_same(&other.parent)
            && self.parent_columns.is_same(&other.parent_columns)
            && self.on_delete == other.on_delete
            && self.on_update == other.on_update
            && self.is_deferred == other.is_deferred
    }
}

impl Same for Stamps {
    fn is_same(&self, other: &Stamps) -> bool {
        self.places.is_same(&other.places)
            && self.terms.is_same(&other.terms)
            && self.formats.is_same(&other.formats)
    }
}

impl Same for Table {
    fn is_same(&self, other: &Table) -> bool {
        has_same_columns(self, other) && has_same_rules(self, other)
    }
}

// Whether two tables have the same name, tree, columns, keys and uniquenesses; `false` says nothing.
fn has_same_columns(table: &Table, other: &Table) -> bool
    ensures { IsTrue result → HaveSameColumns table.now other.now }
{
    table.name.is_same(&other.name)
        && table.tree == other.tree
        && table.columns.is_same(&other.columns)
        && table.key == other.key
        && table.primary.is_same(&other.primary)
        && table.uniques.is_same(&other.uniques)
}

// Whether two tables have the same orders, checks, references and defaults; `false` says nothing.
fn has_same_rules(table: &Table, other: &Table) -> bool
    ensures { IsTrue result → HaveSameRules table.now other.now }
{
    table.orders.is_same(&other.orders)
        && table.checks.is_same(&other.checks)
        && table.references.is_same(&other.references)
        && table.computed.is_same(&other.computed)
        && table.stamps.is_same(&other.stamps)
        && table.is_counted == other.is_counted
}

impl Same for Index {
    fn is_same(&self, other: &Index) -> bool {
        self.name.is_same(&other.name)
            && self.tree == other.tree
            && self.table == other.table
            && self.columns.is_same(&other.columns)
            && self.order.is_same(&other.order)
            && self.is_unique == other.is_unique
    }
}

impl Same for View {
    fn is_same(&self, other: &View) -> bool {
        self.name.is_same(&other.name)
            && self.tree == other.tree
            && self.sql.is_same(&other.sql)
            && self.foreign.is_same(&other.foreign)
            && self.binds == other.binds
            && self.is_bound == other.is_bound
    }
}

/// Whether two databases have the same tables, indexes and further objects, in one order. `true` says so; `false` says
/// nothing, since a default that is a floating-point number, or a check that is built otherwise, is told as another.
pub fn is_same_schema(schema: &Schema, other: &Schema) -> bool
    ensures { IsTrue result → schema.now ≡ other.now }
{
    schema.tables.is_same(&other.tables)
        && schema.indexes.is_same(&other.indexes)
        && schema.views.is_same(&other.views)
}

/// Whether the first table of two databases is the same, whatever else is in them. `true` says so; `false` says nothing, as
/// above, or that one of them has no table.
pub fn has_same_first_table(schema: &Schema, other: &Schema) -> bool
    ensures { IsTrue result → HaveSameFirst schema.now.tables other.now.tables }
{
    match (
        schema.tables.as_slice().first(),
        other.tables.as_slice().first(),
    ) {
        (Some(table), Some(first)) => table.is_same(first),
        _ => false,
    }
}
