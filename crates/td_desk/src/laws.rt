//! Laws of contents, books and runs, as contracts of functions that do nothing.
ghost use Rattle.td_desk.specs.Laws.{EmptyDeskIsTied, FreshBooksAreTied, AgreeingRunsTellTheSame, HeardAlikeIsToldTheSame, ReleasesFindTheirGuarantees};

/// An empty desk is sound, and tied to empty books.
pub fn empty_desk_is_tied()
    ensures { EmptyDeskIsTied }
{}

/// Every content is tied to the books that begin with it, so a run may start from any.
pub fn fresh_books_are_tied()
    ensures { FreshBooksAreTied }
{}

/// The headline: two lists of commands that agree, moments included, on a holder's commands, of which the
/// same failed, tell that holder the same.
pub fn agreeing_runs_tell_the_same()
    ensures agreeing { AgreeingRunsTellTheSame }
    ensures heard { HeardAlikeIsToldTheSame }
{}

/// Over sound rows a release for transit is never refused because a guarantee of the movement isn't there: so `do_one` tells it
/// (`found`) at a desk, whose rows stay sound from one command to the next.
pub fn releases_find_their_guarantees()
    ensures { ReleasesFindTheirGuarantees }
{}
