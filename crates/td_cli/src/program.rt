//! What a `main` calls: the words of the command line as the machine has them, and the program on them.
ghost use Rattle.std.specs.Prelude.{◌≡◌, map, string_bytes, MatchResult};
ghost use Rattle.td_cli.specs.Performed.{IsPerformed, IsUnread};
ghost use Rattle.td_cli.specs.World.{lent_by};

use crate::jobs::perform;
use crate::telling::unread_words;
use std::env::Env;
use std::io::{Read, Write};
use std::{env, io};
use td_base::Counted;
use td_files::DeskFile;
use td_machine::{Drive, HostMachine, Surroundings};

/// The words of the command line, the program's name first. An error: there was no memory for them, or they
/// aren't UTF-8 text.
pub fn words_of(rt: &(impl AllocGlobal + Env)) -> io::Result<Vec<String>> {
    Ok(env::args(rt)?.collect(rt.alloc())?)
}

/// The program on words that were read, or not: does what they ask for as `perform` does, or says why they
/// couldn't be read, and gives the status. Replies go to `out`, and what is wrong to `errors`; the files are those that the
/// words name, that of `--db` first.
pub fn run_program<V: Drive, O: Drive, R: Read, W: Write, E: Write>(
    rt: &HostRuntime,
    words: io::Result<Vec<String>>,
    file: &mut DeskFile<V>,
    other: &mut DeskFile<O>,
    input: &mut Counted<R>,
    out: &mut Counted<W>,
    errors: &mut Counted<E>,
) -> u8
    ensures { MatchResult words
        (λ words. (machine : _) × (machine_left : _)
        × IsPerformed (lent_by ⟦<HostMachine<'static> as Surroundings>⟧.around R.remaining W.contents E.contents V.known V.Disk.Disk O.known O.Disk.Disk)
        (map string_bytes words.items)
        (record { machine = machine; input = input.old; output = out.old; errors = errors.old; file = file.old; other = other.old })
        (record { machine = machine_left; input = input.new; output = out.new; errors = errors.new; file = file.new; other = other.new }) result)
        (λ error. (input.new ≡ input.old) × (out.new ≡ out.old) × (file.new ≡ file.old) × (other.new ≡ other.old)
        × IsUnread E.contents error errors.old errors.new result) }
{
    match words {
        Ok(words) => perform(rt, &words, file, other, input, out, errors),
        Err(error) => unread_words(rt.alloc(), &error, errors),
    }
}
