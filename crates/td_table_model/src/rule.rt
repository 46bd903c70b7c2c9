//! The rules of sound tables.
ghost use Rattle.std.specs.Prelude.{◌≡◌};
ghost use Rattle.td_table_model.specs.Rules.{rule_name};

use std::fmt;

/// A rule of sound tables, beside the keys, references and checks that the database itself keeps. They are looked
/// for in this order.
#[derive(Clone, Copy, Debug, PartialEq, Eq)]
pub enum Rule {
    /// The country in `meta` is two capital letters.
    S1,
    /// Each EORI is well formed, and each moment of a last change is in range.
    S2,
    /// Each holder's guarantees have the serials from 1 to the count in the holder's row, each a GRN of the desk's
    /// country, the holder and its serial, and a reference amount, a cover and a last day in range.
    S3,
    /// Each code names a guarantee and is well formed, and each guarantee has 1 to 20.
    S4,
    /// Each holder's movements have the serials from 1 to the count in the holder's row, each the MRN of the year of
    /// its acceptance, the desk's country, the holder and its serial, an LRN, offices and days in range, and the days
    /// and the office of its state.
    S5,
    /// Each movement's lines are numbered from 1 to at most 99, each on a guarantee of the holder's, no two on one, with
    /// amounts in range; and no line is without a movement. Below version 3 the table itself takes at most 9.
    S6,
    /// Each amount in use that is kept is the sum of the lines that it stands for. Version 1 keeps none.
    S7,
    /// The amount in use on each guarantee is at most its reference amount.
    S8,
}

impl Rule {
    /// Its name, as `check` prints it.
    pub fn name(self) -> &'static str
        ensures { result.now ≡ rule_name self }
    {
        match self {
            Rule::S1 => "S1",
            Rule::S2 => "S2",
            Rule::S3 => "S3",
            Rule::S4 => "S4",
            Rule::S5 => "S5",
            Rule::S6 => "S6",
            Rule::S7 => "S7",
            Rule::S8 => "S8",
        }
    }
}

impl fmt::Display for Rule {
    ghost use Rattle.std.specs.Prelude.{Some};

    ghost output = { λ rule. Some (rule_name rule) };

    fn fmt<W: fmt::Write>(&self, f: &mut fmt::Formatter<W>) -> fmt::Result {
        f.write_str(self.name())
    }
}
