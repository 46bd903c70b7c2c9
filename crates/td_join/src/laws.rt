//! Laws of two contents in one, as contracts of functions that do nothing.
ghost use Rattle.td_join.specs.Laws.{AccountsAreOfEither, PartsAreApart, PartsJoinToTheWhole, SoundContentsJoin, SplitsJoinBack};

/// Two contents in one keep of each holder of the first what this keeps, and of any other number what the second keeps.
pub fn accounts_are_of_either()
    ensures { AccountsAreOfEither }
{}

/// They are sound in one where both are.
pub fn sound_contents_join()
    ensures { SoundContentsJoin }
{}

/// What a content has of the holders up to a number, and what it has of those behind, joined, are what it has of all of these.
pub fn parts_join_to_the_whole()
    ensures { PartsJoinToTheWhole }
{}

/// No holder stands in both parts.
pub fn parts_are_apart()
    ensures { PartsAreApart }
{}

/// A sound content that is split in two at a number is joined to what it was.
pub fn splits_join_back()
    ensures { SplitsJoinBack }
{}
