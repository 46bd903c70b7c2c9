//! The parts of a path.
ghost use Rattle.std.specs.Prelude.{◌≡◌, option_map};
ghost use Rattle.std.specs.List.{slice_get};

use matchit::Params;
use std::marker::Model;

/// The parts of a path that the names of a pattern stand for, from left to right.
#[derive(Drop)]
pub struct Parts<'t, 'p> {
    params: Params<'t, 'p>,
}

impl<'t, 'p> Model for Parts<'t, 'p> {
    ghost use Rattle.std.specs.Prelude.{ℕ, List};
    ghost use Rattle.std.specs.List.{AllByRecursion};
    ghost use Rattle.std.specs.Str.{IsUtf8};
    ghost use Rattle.path_table.specs.Taken.{taken_parts};

    ghost Value = { List (List ℕ) };

    ghost view = { λ a. taken_parts a.params };

    ghost invariant = { λ a. AllByRecursion IsUtf8 (taken_parts a.params) };
}

impl<'t, 'p> Parts<'t, 'p> {
    ghost use Rattle.std.specs.List.{AllByRecursion};
    ghost use Rattle.std.specs.Str.{IsUtf8};
    ghost use Rattle.path_table.specs.Taken.{taken_parts};

    // What the parameters of a match took.
    pub(crate) fn of(params: Params<'t, 'p>) -> Parts<'t, 'p>
        requires { AllByRecursion IsUtf8 (taken_parts params) }
        ensures { result ≡ taken_parts params.entry }
    {
        Parts { params }
    }

    /// The part at this place from the left, counted from 0: `None` where the pattern has fewer names.
    pub fn get(&self, place: usize) -> Option<&'p str>
        ensures { option_map (λ part. part.now) result ≡ slice_get self.now place }
    {
        let (_, part) = self.params.iter().nth(place)?;
        Some(part)
    }

    /// The first two parts, read in one walk along the path: `None` for each that the pattern has no name for.
    pub fn first_two(&self) -> (Option<&'p str>, Option<&'p str>)
        ensures first { option_map (λ part. part.now) result.0 ≡ slice_get self.now 0 }
        ensures second { option_map (λ part. part.now) result.1 ≡ slice_get self.now 1 }
    {
        let mut params = self.params.iter();
        let Some((_, first)) = params.next() else {
            return (None, None);
        };
        match params.next() {
            Some((_, second)) => (Some(first), Some(second)),
            None => (Some(first), None),
        }
    }
}
