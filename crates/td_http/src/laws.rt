//! Laws of what a holder is told over HTTP, as contracts of functions that do nothing.
ghost use Rattle.std.specs.Prelude.{◌≡◌, ℕ, ℤ, List, ◌++◌, Ok, Some};
ghost use Rattle.td_commands.specs.declared.command.Command.{Command};
ghost use Rattle.td_model.specs.Book.{Book};
ghost use Rattle.td_commands.specs.Commands.{owner_of};
ghost use Rattle.http_wire.specs.declared.reply.Reply.{Reply};
ghost use Rattle.http_wire.specs.declared.stream.StreamEnd.{StreamEnd};
ghost use Rattle.http_wire.specs.Wire.{Asked};
ghost use Rattle.http_wire.specs.ReplyText.{bytes_of};
ghost use Rattle.http_wire.specs.Stream.{Exchange, Serves, Sides};
ghost use Rattle.td_desk.specs.View.{IsSettled};
ghost use Rattle.td_http.specs.declared.service.Service.{Service};
ghost use Rattle.td_http.specs.Laws.{IsRequestAt, IsStreamAt, TellAlike, fault_told};
ghost use Rattle.td_http.specs.Kept.{IsKeptBetween};
ghost use Rattle.td_http.specs.Serving.{IsHandledBy, IsHeadHandledBy, command_in, desk_of};

use http_wire::Clock;
use std::io::{Read, Write};
use td_desk::Desk;

/// The headline, over the bytes of two streams, each as a call of `serve_stream` leaves it. They may be
/// served at different desks of one country, over different readers, writers and clocks, from contents
/// as different as one likes for all holders but H. Where the requests that were handled agree on H's
/// commands (their moments and whether a reply has to tell that the stream stops included), and the same
/// of these failed, H has the same replies, byte for byte.
pub fn agreeing_streams_tell_the_same<
    R: Read,
    W: Write,
    C: Clock,
    D: Desk,
    OtherR: Read,
    OtherW: Write,
    OtherC: Clock,
    OtherD: Desk,
>()
    ensures { (country : List ℕ) (H : ℕ) (books others : ℕ → Book)
        (old new : Sides R W C (Service D)) (end : StreamEnd)
        (other_old other_new : Sides OtherR OtherW OtherC (Service OtherD)) (other_end : StreamEnd)
        → (one : Serves R.remaining W.contents C.ticks (IsHandledBy D.seen) IsHeadHandledBy old new end)
        → (other : Serves OtherR.remaining OtherW.contents OtherC.ticks (IsHandledBy OtherD.seen) IsHeadHandledBy other_old other_new other_end)
        → IsStreamAt D.seen country books one
        → IsStreamAt OtherD.seen country others other
        → books H ≡ others H
        → TellAlike country H one.run.exchanges other.run.exchanges }
{}

/// The same of one call of `Service::handle` each: a command of H's at one moment, whose replies have to
/// tell the same of the stream's end, and which failed by one fault or not at all, has equal replies.
pub fn equal_requests_are_told_the_same<D: Desk, OtherD: Desk>()
    ensures { (country : List ℕ) (H : ℕ) (books others : ℕ → Book) (command : Command) (at : ℤ)
        (old new : Service D) (asked : Asked) (reply : Reply)
        (other_old other_new : Service OtherD) (other_asked : Asked) (other_reply : Reply)
        → IsRequestAt D.seen country books old at asked reply new
        → IsRequestAt OtherD.seen country others
        other_old at other_asked other_reply other_new
        → books H ≡ others H → owner_of country command ≡ Some H
        → command_in asked ≡ Ok command → command_in other_asked ≡ Ok command
        → asked.close ≡ other_asked.close
        → fault_told reply ≡ fault_told other_reply
        → bytes_of reply ≡ bytes_of other_reply }
{}

/// What was acknowledged is kept. However the exchanges of a stream at a clean desk are split in two, there was a moment between
/// them at which whatever a crash leaves is a desk: with the accepted changes of the first part, and at most one more, which was
/// answered by a fixed reply. While no fault has shut the desk, its content was sound then.
pub fn acknowledged_replies_are_kept<R: Read, W: Write, C: Clock, D: Desk>()
    ensures { (country : List ℕ) (books : ℕ → Book) (old new : Sides R W C (Service D)) (end : StreamEnd)
        (first others : List Exchange)
        → (served : Serves R.remaining W.contents C.ticks (IsHandledBy D.seen) IsHeadHandledBy old new end)
        → IsStreamAt D.seen country books served
        → IsSettled D.seen (desk_of old.handler)
        → served.run.exchanges ≡ first ++ others
        → IsKeptBetween C.ticks D.seen country books first others (old.clock, old.handler) (new.clock, served.run.handler) }
{}
