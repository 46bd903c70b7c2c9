//! Views: what they show, and nothing is written for them. They take what they show, and know not where it comes
//! from.
ghost use Rattle.std.specs.Prelude.{◌≡◌};
ghost use Rattle.td_model.specs.Table.{or_refuse};

use crate::rows::Verdict;
use td_base::Cents;
use td_commands::{Answer, ListedGuarantees, ListedMovement, ListedMovements, Refusal, Said};
use td_guarantee::Guarantee;
use td_model::{Change, HolderRow};
use td_movement::Movement;

/// The verdict on a view of a holder, of whom this is the row, if it is there.
pub fn see_holder(holder: Option<HolderRow>) -> Verdict
    ensures said { result.said ≡ or_refuse Refusal.NoHolder holder (λ row.
        Said.Answered (Answer.Holder row.holder row.eori row.grn_count row.mrn_count)) }
    ensures change { result.change ≡ Change.Nothing }
{
    match &holder {
        None => Verdict::refused(Refusal::NoHolder),
        Some(row) => Verdict::shown(holder_answer(row)),
    }
}

/// The verdict on a view of a movement, where this is the holder's row and this the movement, if they are there.
pub fn see_movement(holder: Option<HolderRow>, found: Option<Movement>) -> Verdict
    ensures said { result.said ≡ or_refuse Refusal.NoHolder holder (λ row.
        or_refuse Refusal.NoMovement found (λ movement. Said.Answered (Answer.Movement movement))) }
    ensures change { result.change ≡ Change.Nothing }
{
    if holder.is_none() {
        return Verdict::refused(Refusal::NoHolder);
    }
    match found {
        None => Verdict::refused(Refusal::NoMovement),
        Some(movement) => Verdict::shown(Answer::Movement(movement)),
    }
}

/// The verdict on a view of all movements, where this is the holder's row, if it is there, and these are the
/// movements as a list shows them.
pub fn see_movements(holder: Option<HolderRow>, items: Vec<ListedMovement>) -> Verdict
    ensures said { result.said ≡ or_refuse Refusal.NoHolder holder (λ row.
        Said.Answered (Answer.Movements items.items)) }
    ensures change { result.change ≡ Change.Nothing }
{
    if holder.is_none() {
        return Verdict::refused(Refusal::NoHolder);
    }
    Verdict::shown(Answer::Movements(ListedMovements::new(items)))
}

/// The verdict on a view of a guarantee, where this is the holder's row, and this the guarantee with the amount in
/// use on it, if they are there.
pub fn see_guarantee(holder: Option<HolderRow>, found: Option<(Guarantee, Cents)>) -> Verdict
    ensures said { result.said ≡ or_refuse Refusal.NoHolder holder (λ row.
        or_refuse Refusal.NoGuarantee found (λ entry. Said.Answered (Answer.Guarantee entry.0 entry.1))) }
    ensures change { result.change ≡ Change.Nothing }
{
    if holder.is_none() {
        return Verdict::refused(Refusal::NoHolder);
    }
    match found {
        None => Verdict::refused(Refusal::NoGuarantee),
        Some((guarantee, used)) => Verdict::shown(Answer::Guarantee(guarantee, used)),
    }
}

/// The verdict on a view of all guarantees, where this is the holder's row, if it is there, and these are the
/// guarantees with the amounts in use on them.
pub fn see_guarantees(holder: Option<HolderRow>, entries: Vec<(Guarantee, Cents)>) -> Verdict
    ensures said { result.said ≡ or_refuse Refusal.NoHolder holder (λ row.
        Said.Answered (Answer.Guarantees entries.items)) }
    ensures change { result.change ≡ Change.Nothing }
{
    if holder.is_none() {
        return Verdict::refused(Refusal::NoHolder);
    }
    Verdict::shown(Answer::Guarantees(ListedGuarantees::new(entries)))
}

/// The answer that shows a holder's row.
pub fn holder_answer(row: &HolderRow) -> Answer
    ensures { result ≡ Answer.Holder row.now.holder row.now.eori row.now.grn_count row.now.mrn_count }
{
    Answer::Holder {
        holder: row.holder,
        eori: row.eori,
        guarantees: row.grn_count,
        movements: row.mrn_count,
    }
}
