//! Laws of commands that are asked again at their moment, as contracts of functions that do nothing.
ghost use Rattle.td_redo.specs.Boundary.{NotTheLastButOne};
ghost use Rattle.td_redo.specs.SentAgain.{DeclaredOnce};
ghost use Rattle.td_redo.specs.Replies.{BodyIsEnough};
ghost use Rattle.td_redo.specs.Second.{SaidTheSecondTime, StandsIsTold};
ghost use Rattle.td_redo.specs.Laws.{
  AnotherGrn,
  CrashLeavesEither,
  DoneTwiceIsDoneOnce,
  EndsAsRedone,
  GrnIsEnough,
  JournalMakesOneContent,
  OneEnding,
  RedoLaw,
  RedoneOverItsBeginning,
  RedoneOverItsEnd,
  RedoneTwiceIsRedoneOnce,
  RowIsSaidAgain,
  RowThatIsDueIsCarried,
  RowThatStandsIsTold,
  StartAfterCrashIsWhole,
  StartIsWhole,
  StartMayBeginAgain,
  TwiceAtADeskIsOnce,
};

use td_desk::Desk;

/// Whatever is said the second time: a command that opens no guarantee, done twice at one moment, is done once.
pub fn done_twice()
    ensures { DoneTwiceIsDoneOnce }
{}

/// An opening that is asked again is refused, or answered with another GRN.
pub fn another_grn()
    ensures { AnotherGrn }
{}

/// Where a command is answered again as it was, doing it again leaves the account.
pub fn redo<X>()
    ensures { RedoLaw X }
{}

/// The same as the first law, of a desk's content.
pub fn twice_at_a_desk()
    ensures { TwiceAtADeskIsOnce }
{}

/// A change that was not done yet is done by a redo.
pub fn redone_over_its_beginning<X>()
    ensures { RedoneOverItsBeginning X }
{}

/// A change that stands already stands after a redo, once.
pub fn redone_over_its_end<X>()
    ensures { RedoneOverItsEnd X }
{}

/// A redo with its ending is one of the two cases of a redo.
pub fn ends_as_redone()
    ensures { EndsAsRedone }
{}

/// A redo over one content ends in one way, and leaves one content.
pub fn one_ending()
    ensures { OneEnding }
{}

/// What is said to the command of a row that stands is what is said to such a change the second time.
pub fn row_is_said_again()
    ensures { RowIsSaidAgain }
{}

/// A row that can be done is carried.
pub fn row_that_is_due_is_carried()
    ensures { RowThatIsDueIsCarried }
{}

/// A row that stands is told so, or carried to the same content: it is never told as foreign.
pub fn row_that_stands_is_told()
    ensures { RowThatStandsIsTold }
{}

/// A second redo does nothing, whatever reply the row has.
pub fn redone_twice()
    ensures { RedoneTwiceIsRedoneOnce }
{}

/// After a start that redoes the last row, the file holds what the journal's rows did.
pub fn start_is_whole()
    ensures { StartIsWhole }
{}

/// A start that stopped on its way may begin again.
pub fn start_may_begin_again()
    ensures { StartMayBeginAgain }
{}

/// A journal's rows make one content of that with which it began.
pub fn journal_makes_one_content<X>()
    ensures { JournalMakesOneContent X }
{}

/// All that a row has to show of what was said is the GRN of an opening.
pub fn grn_is_enough()
    ensures { GrnIsEnough }
{}

/// A crash after a command, answered or failed, leaves the content before it or the content after it.
pub fn crash_leaves_either<D: Desk>()
    ensures { CrashLeavesEither D.seen }
{}

/// A start that redoes the row of that command comes to the content after it.
pub fn start_after_crash_is_whole<D: Desk>()
    ensures { StartAfterCrashIsWhole D.seen }
{}

/// The laws are of the last row alone: the last but one may be answered as it was, and be done a second time.
pub fn not_the_last_but_one()
    ensures { NotTheLastButOne }
{}

/// A row may show the body of the reply: it tells the GRN of an opening from whatever else may be said.
pub fn body_is_enough()
    ensures { BodyIsEnough }
{}

/// What is said to a change that was done and is asked again, command by command.
pub fn said_the_second_time()
    ensures { SaidTheSecondTime }
{}

/// The same, over a desk's content in which the change stands.
pub fn stands_is_told()
    ensures { StandsIsTold }
{}

/// A declaration that was accepted changes nothing again, whatever came between.
pub fn declared_once()
    ensures { DeclaredOnce }
{}
