//! Laws of the model, as contracts of functions that do nothing.
ghost use Rattle.td_acts.specs.Laws.{WritesWhatIsAccepted, WritesWhatTheBookSays, FreshBookSaysItsAccount, KeepsRowsSound, OtherFormNamesNothing, NobodyWrites};

/// Something is written exactly where the model accepts a change.
pub fn writes_what_is_accepted()
    ensures { WritesWhatIsAccepted }
{}

/// What is written for a command turns the owner's account into the account of the owner's book after the
/// command.
pub fn writes_what_the_book_says()
    ensures { WritesWhatTheBookSays }
{}

/// A book that begins with an account says that account.
pub fn fresh_book_says_its_account()
    ensures { FreshBookSaysItsAccount }
{}

/// What is written for a command into its owner's rows keeps the rules of one holder's rows.
pub fn keeps_rows_sound()
    ensures { KeepsRowsSound }
{}

/// Over sound rows the text of a movement's serial in the other form, of whatever year, names no movement.
pub fn other_form_names_nothing()
    ensures { OtherFormNamesNothing }
{}

/// Nothing is written for a command that nobody owns.
pub fn nobody_writes()
    ensures { NobodyWrites }
{}
