//! Decisions.
ghost use Rattle.std.specs.Prelude.{◌≡◌};
ghost use Rattle.td_model.specs.Changes.{is_change};

use std::marker::Model;
use td_acts::{Change, Said, Verdict};

/// What was decided on a command. It must be spent, by `Desk::carry` or `waive`: it cannot be dropped.
pub struct Decision {
    verdict: Verdict,
}

impl Model for Decision {
    ghost use Rattle.td_acts.specs.declared.rows.Verdict.{Verdict};

    ghost Value = { Verdict };

    ghost view = { λ d. d.verdict };
}

impl Decision {
    /// The decision that holds a verdict: for desks.
    pub fn new(verdict: Verdict) -> Self
        ensures { result ≡ verdict }
    {
        Self { verdict }
    }

    /// What is said to the command once the decision is carried.
    pub fn said(&self) -> &Said
        ensures { result.now ≡ self.now.said }
    {
        &self.verdict.said
    }

    /// Whether carrying it changes something.
    pub fn changes(&self) -> bool
        ensures { result ≡ is_change self.now.change }
    {
        !matches!(self.verdict.change, Change::Nothing)
    }

    /// The verdict, to be carried out: for desks.
    pub fn into_verdict(self) -> Verdict
        ensures { result ≡ self }
    {
        let Decision { verdict } = self;
        verdict
    }

    /// Spends the decision and does nothing.
    pub fn waive(self) {
        let Decision { verdict: _verdict } = self;
    }
}
