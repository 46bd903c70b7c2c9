//! What the reports have of the rows of a desk's file.
use crate::lines::{guarantee_line, overdue_line};
use std::alloc::{AllocError, Global};
use td_base::Day;
use td_report_pieces::Report;
use td_store_rows::{KeptGuarantee, MovementDeadlines};

/// The movements that are overdue on a day.
#[derive(Drop)]
pub(crate) struct OverdueOn {
    pub(crate) day: Day,
}

impl Report<MovementDeadlines> for OverdueOn {
    ghost use Rattle.td_reports.specs.Texts.{deadlines_line};

    ghost line = { λ report row. deadlines_line report.day row };

    fn line(&self, alloc: Global, row: &MovementDeadlines) -> Result<Option<String>, AllocError> {
        overdue_line(alloc, self.day, row)
    }
}

/// All guarantees, with the amounts in use on them.
#[derive(Drop)]
pub(crate) struct AmountsInUse;

impl Report<KeptGuarantee> for AmountsInUse {
    ghost use Rattle.std.specs.Prelude.{Some};
    ghost use Rattle.td_reports.specs.Texts.{guarantee_line};

    ghost line = { λ _ row. Some (guarantee_line (row.holder, (row.guarantee, row.used))) };

    fn line(&self, alloc: Global, row: &KeptGuarantee) -> Result<Option<String>, AllocError> {
        Ok(Some(guarantee_line(alloc, row.holder, &row.guarantee, row.used)?))
    }
}
