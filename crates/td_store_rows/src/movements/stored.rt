//! Movements as their rows have them, read from the columns that a statement shows.
use keyed_rows::Keyed;
use sqlite::Row;
use std::alloc::Global;
use td_base::{Day, HolderNo, Mrn};
use td_commands::ListedMovement;
use td_movement::{Movement, MovementLines, State};
use td_schema::{
    day_at, holder_at, lrn_at, mrn_at, office_at, optional_day_at, optional_office_at, serial_at,
    state_at,
};
use typed_sql::FromRow;

/// The row of a movement: its holder, its serial among the holder's, and the movement, without lines.
#[derive(Debug, Drop)]
pub struct StoredMovement {
    pub holder: HolderNo,
    pub serial: u32,
    pub movement: Movement,
}

impl FromRow for StoredMovement {
    ghost use Rattle.td_table_model.specs.Tables.{Keyed};
    ghost use Rattle.td_movement.specs.declared.movement.Movement.{Movement};
    ghost use Rattle.td_store_rows.specs.Columns.{movement_from};
    ghost use Rattle.td_store_rows.specs.MovementTable.{movement_row_of};

    ghost Typed = { Keyed Movement };

    ghost typed = { movement_row_of };

    ghost from = { movement_from };

    // A row of eleven columns.
    fn from_row(alloc: Global, row: &Row) -> Option<Self> {
        let movement = Movement {
            mrn: mrn_at(row, 2)?,
            lrn: lrn_at(row, 3)?,
            departure: office_at(row, 4)?,
            destination: office_at(row, 5)?,
            accepted: day_at(row, 6)?,
            state: state_at(row, 7)?,
            limit: optional_day_at(row, 8)?,
            arrival: optional_day_at(row, 9)?,
            actual: optional_office_at(row, 10)?,
            lines: MovementLines::new(Vec::new(alloc)),
        };
        Some(StoredMovement {
            holder: holder_at(row, 0)?,
            serial: serial_at(row, 1)?,
            movement,
        })
    }
}

/// What the row of a movement says of its deadlines, read alone: whose movement it is and which, its state, the day by which it has
/// to arrive and the day on which it arrived, as far as there are any.
#[derive(Clone, Copy, Debug)]
pub struct MovementDeadlines {
    pub holder: HolderNo,
    pub mrn: Mrn,
    pub state: State,
    pub limit: Option<Day>,
    pub arrival: Option<Day>,
}

impl FromRow for MovementDeadlines {
    ghost use Rattle.td_store_rows.specs.MovementTable.{deadlines_from};
    ghost use Rattle.td_store_rows.specs.declared.movements.stored.MovementDeadlines.{MovementDeadlines};

    ghost Typed = { MovementDeadlines };

    ghost typed = { λ row. row };

    ghost from = { deadlines_from };

    // A row of five columns.
    fn from_row(_alloc: Global, row: &Row) -> Option<Self> {
        Some(MovementDeadlines {
            holder: holder_at(row, 0)?,
            mrn: mrn_at(row, 1)?,
            state: state_at(row, 2)?,
            limit: optional_day_at(row, 3)?,
            arrival: optional_day_at(row, 4)?,
        })
    }
}

/// What a list shows of a movement, read alone.
#[derive(Clone, Copy, Debug)]
pub struct MovementInList {
    pub shown: ListedMovement,
}

impl FromRow for MovementInList {
    ghost use Rattle.td_commands.specs.declared.lists.ListedMovement.{ListedMovement};
    ghost use Rattle.td_store_rows.specs.MovementTable.{listed_from, shown_in_list};

    ghost Typed = { ListedMovement };

    ghost typed = { shown_in_list };

    ghost from = { listed_from };

    // A row of three columns.
    fn from_row(_alloc: Global, row: &Row) -> Option<Self> {
        let shown = ListedMovement {
            mrn: mrn_at(row, 0)?,
            lrn: lrn_at(row, 1)?,
            state: state_at(row, 2)?,
        };
        Some(MovementInList { shown })
    }
}

/// The serial of a movement among its holder's, read alone.
#[derive(Clone, Copy, Debug, PartialEq, Eq)]
pub struct MovementSerial {
    pub serial: u32,
}

impl FromRow for MovementSerial {
    ghost use Rattle.std.specs.Prelude.{ℕ};
    ghost use Rattle.sqlite_value.specs.Order.{column};
    ghost use Rattle.typed_sql.specs.Values.{number_in};
    ghost use Rattle.td_store_rows.specs.MovementTable.{serial_of_stored};

    ghost Typed = { ℕ };

    ghost typed = { serial_of_stored };

    ghost from = { λ cells. number_in (column cells 0) };

    // A row of one column.
    fn from_row(alloc: Global, row: &Row) -> Option<Self> {
        Some(MovementSerial {
            serial: serial_at(row, 0)?,
        })
    }
}

impl Keyed for MovementSerial {
    ghost use Rattle.td_store_rows.specs.MovementTable.{serial_of_stored};

    ghost key_of = { serial_of_stored };

    fn key(&self) -> u32 {
        self.serial
    }
}
