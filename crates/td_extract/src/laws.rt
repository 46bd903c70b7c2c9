//! Laws of what a content has of the holders of a range, as contracts of functions that do nothing.
ghost use Rattle.td_extract.specs.Laws.{AccountsAreOfTheRange, SoundPartsAreSound};

/// What a content has of the holders of a range keeps of each of them what the whole keeps, and of any other number nothing.
pub fn accounts_are_of_the_range()
    ensures { AccountsAreOfTheRange }
{}

/// It is sound where the whole is.
pub fn sound_parts_are_sound()
    ensures { SoundPartsAreSound }
{}
