//! Batches at a desk, as the laws of split rows speak of them.
ghost use Rattle.std.specs.Prelude.{◌≢◌, List, []};
ghost use Rattle.td_commands.specs.declared.said.Said.{Said};
ghost use Rattle.td_model.specs.Content.{IsSound};
ghost use Rattle.td_batch.specs.Results.{act_result, acts_header, declaration_result, declarations_header};
ghost use Rattle.td_batch.specs.Runs.{IsRunOf};
ghost use Rattle.td_split_jobs.specs.Rows.{IsBatchAt};

use std::alloc::Global;
use td_batch::{BatchRun, run_acts, run_declarations};
use td_batch_rows::{ActRow, DeclarationRow};
use td_desk::Desk;

/// Does a share of declarations in order at a desk, as `run_declarations` does, and says of it what the laws ask for.
/// The text is empty where there was no memory for the header.
pub fn run_declaration_share<D: Desk>(
    alloc: Global,
    desk: &mut D,
    at: i64,
    rows: &[DeclarationRow],
) -> BatchRun
    ensures run { IsRunOf D.seen declaration_result declarations_header at rows.now result desk.old desk.new }
    ensures share { D.seen.is_clean desk.new → D.seen.is_live desk.old → IsSound (D.seen.content desk.old) → result.text.items ≢ []
        → (said : List Said) × IsBatchAt D.seen (record { line = declaration_result; header = declarations_header; at = at })
        (D.seen.content desk.old).country rows.now (record { run = result; said = said; old = desk.old; new = desk.new }) }
{
    run_declarations(alloc, desk, at, rows)
}

/// The same of acts, as `run_acts` does them.
pub fn run_act_share<D: Desk>(alloc: Global, desk: &mut D, at: i64, rows: &[ActRow]) -> BatchRun
    ensures run { IsRunOf D.seen act_result acts_header at rows.now result desk.old desk.new }
    ensures share { D.seen.is_clean desk.new → D.seen.is_live desk.old → IsSound (D.seen.content desk.old) → result.text.items ≢ []
        → (said : List Said) × IsBatchAt D.seen (record { line = act_result; header = acts_header; at = at })
        (D.seen.content desk.old).country rows.now (record { run = result; said = said; old = desk.old; new = desk.new }) }
{
    run_acts(alloc, desk, at, rows)
}
