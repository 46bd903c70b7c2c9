//! JSON, written straight into a text.
ghost use Rattle.std.specs.Fmt.{WritesOnOk};
ghost use Rattle.std.specs.Prelude.{Some};
ghost use Rattle.serde_json.specs.Data.{Data, boolean, number, string, unsigned};
ghost use Rattle.serde_json.specs.Written.{compact_text};
ghost use Rattle.td_answers.specs.Objects.{array_of, shown_or_null};
ghost use Rattle.td_base.specs.Days.{day_text};
ghost use Rattle.td_base.specs.Codes.{holder_text};
ghost use Rattle.td_movement.specs.States.{state_name};

use std::fmt;
use td_base::{AccessCode, Cents, Cover, Day, Eori, Grn, HolderNo, Lrn, Mrn, OfficeNo};
use td_movement::State;

/// What JSON shows of a value, and its text. It stands in this crate, since another crate's trait can't be implemented here for the
/// types of td_base.
pub(crate) trait ToJson {
    ghost shown: { Self → Data };

    /// Writes the text, with no space.
    fn write_json<W: fmt::Write>(&self, f: &mut fmt::Formatter<W>) -> fmt::Result
        ensures { WritesOnOk W.write_str_gives f.old result (compact_text (shown self.now)) f.new };
}

/// A value that `{}` prints as JSON.
#[derive(Drop)]
pub(crate) struct Json<'a, T>(pub &'a T);

impl<T: ToJson> fmt::Display for Json<'_, T> {
    ghost output = { λ j. Some (compact_text (T.shown j.0.now)) };

    fn fmt<W: fmt::Write>(&self, f: &mut fmt::Formatter<W>) -> fmt::Result {
        self.0.write_json(f)
    }
}

impl<T: ToJson> ToJson for Option<T> {
    ghost shown = { shown_or_null T.shown };

    fn write_json<W: fmt::Write>(&self, f: &mut fmt::Formatter<W>) -> fmt::Result {
        match self {
            None => f.write_str("null"),
            Some(value) => value.write_json(f),
        }
    }
}

impl<T: ToJson> ToJson for &[T] {
    ghost shown = { λ s. array_of T.shown s.now };

    fn write_json<W: fmt::Write>(&self, f: &mut fmt::Formatter<W>) -> fmt::Result {
        let Some((first, others)) = self.split_first() else {
            return f.write_str("[]");
        };
        f.write_str("[")?;
        first.write_json(f)?;
        for value in others {
            f.write_str(",")?;
            value.write_json(f)?;
        }
        f.write_str("]")
    }
}

impl ToJson for bool {
    ghost shown = { boolean };

    fn write_json<W: fmt::Write>(&self, f: &mut fmt::Formatter<W>) -> fmt::Result {
        f.write_str(if *self { "true" } else { "false" })
    }
}

impl ToJson for Eori {
    ghost shown = { string };

    fn write_json<W: fmt::Write>(&self, f: &mut fmt::Formatter<W>) -> fmt::Result {
        let _form = self.as_bytes();
        write!(f, "\"{self}\"")
    }
}

impl ToJson for Lrn {
    ghost shown = { string };

    fn write_json<W: fmt::Write>(&self, f: &mut fmt::Formatter<W>) -> fmt::Result {
        let _form = self.as_bytes();
        write!(f, "\"{self}\"")
    }
}

impl ToJson for Grn {
    ghost shown = { string };

    fn write_json<W: fmt::Write>(&self, f: &mut fmt::Formatter<W>) -> fmt::Result {
        let _form = self.as_bytes();
        write!(f, "\"{self}\"")
    }
}

impl ToJson for Mrn {
    ghost shown = { string };

    fn write_json<W: fmt::Write>(&self, f: &mut fmt::Formatter<W>) -> fmt::Result {
        let _form = self.as_bytes();
        write!(f, "\"{self}\"")
    }
}

impl ToJson for OfficeNo {
    ghost shown = { string };

    fn write_json<W: fmt::Write>(&self, f: &mut fmt::Formatter<W>) -> fmt::Result {
        let _form = self.as_bytes();
        write!(f, "\"{self}\"")
    }
}

impl ToJson for AccessCode {
    ghost shown = { string };

    fn write_json<W: fmt::Write>(&self, f: &mut fmt::Formatter<W>) -> fmt::Result {
        let _form = self.as_bytes();
        write!(f, "\"{self}\"")
    }
}

impl ToJson for HolderNo {
    ghost shown = { λ holder. string (holder_text holder) };

    fn write_json<W: fmt::Write>(&self, f: &mut fmt::Formatter<W>) -> fmt::Result {
        write!(f, "\"{self}\"")
    }
}

impl ToJson for Day {
    ghost shown = { λ day. string (day_text day) };

    fn write_json<W: fmt::Write>(&self, f: &mut fmt::Formatter<W>) -> fmt::Result {
        write!(f, "\"{self}\"")
    }
}

impl ToJson for State {
    ghost shown = { λ state. string (state_name state) };

    fn write_json<W: fmt::Write>(&self, f: &mut fmt::Formatter<W>) -> fmt::Result {
        write!(f, "\"{}\"", self.name())
    }
}

impl ToJson for Cents {
    ghost shown = { λ cents. number (unsigned cents) };

    fn write_json<W: fmt::Write>(&self, f: &mut fmt::Formatter<W>) -> fmt::Result {
        write!(f, "{}", self.get())
    }
}

impl ToJson for Cover {
    ghost shown = { λ percent. number (unsigned percent) };

    fn write_json<W: fmt::Write>(&self, f: &mut fmt::Formatter<W>) -> fmt::Result {
        write!(f, "{}", self.get())
    }
}
