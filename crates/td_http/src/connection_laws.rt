//! Laws of connections one after another, as contracts of functions that do nothing.
ghost use Rattle.std.specs.Prelude.{◌≡◌, ℕ, List, ◌∷◌, ◌++◌, map, Result};
ghost use Rattle.std.specs.declared.io.Error.{Error};
ghost use Rattle.td_model.specs.Book.{Book};
ghost use Rattle.td_desk.specs.View.{IsSettled};
ghost use Rattle.td_http.specs.declared.service.Service.{Service};
ghost use Rattle.td_http.specs.ConnectionLaws.{AreServedAt, TellAlikeOver};
ghost use Rattle.td_http.specs.Connections.{Between, ServesConnections, connections_by, desk_server};
ghost use Rattle.td_http.specs.KeptOver.{Cut, IsKeptWithin};
ghost use Rattle.td_http.specs.Serving.{desk_of};

use crate::Clock;
use crate::connections::Connections;
use td_desk::Desk;

/// The headline, over the bytes of two calls of `serve_connections`, each as the call leaves it. They may be
/// served at different desks of one country, over different sources of connections and clocks, from contents as
/// different as one likes for all holders but H. Where the requests that were handled, over all connections in
/// their order, agree on H's commands (their moments and whether a reply has to tell that the stream stops
/// included), and the same of these failed, H has the same replies over all connections, byte for byte. How the
/// commands are spread over connections makes no difference.
pub fn agreeing_connections_tell_the_same<
    L: Connections,
    C: Clock,
    D: Desk,
    OtherL: Connections,
    OtherC: Clock,
    OtherD: Desk,
>()
    ensures { (country : List ℕ) (H : ℕ) (books others : ℕ → Book)
        (old new : Between L C (Service D)) (count : ℕ) (answer : Result Unit Error)
        (other_old other_new : Between OtherL OtherC (Service OtherD)) (other_count : ℕ)
        (other_answer : Result Unit Error)
        → (one : ServesConnections (connections_by L.Reader.remaining L.Writer.contents L.gives L.takes L.refuses)
        (desk_server C.ticks D.seen) old new count answer)
        → (other : ServesConnections (connections_by OtherL.Reader.remaining OtherL.Writer.contents OtherL.gives OtherL.takes OtherL.refuses)
        (desk_server OtherC.ticks OtherD.seen) other_old other_new other_count other_answer)
        → AreServedAt D.seen country books one
        → AreServedAt OtherD.seen country others other
        → books H ≡ others H
        → TellAlikeOver country H (map (λ connection. connection.exchanges) one.all_served)
        (map (λ connection. connection.exchanges) other.all_served) }
{}

/// What was acknowledged is kept, whatever connection it came over. Take any of the connections that were served at a clean desk, and
/// any two parts of its exchanges, one after the other: between them there was a moment at which whatever a crash leaves is a desk,
/// with the accepted changes of all connections before this one and of the first part, and at most one more, which was answered by
/// a fixed reply. While no fault has shut the desk, its content was sound then.
pub fn acknowledged_connections_are_kept<L: Connections, C: Clock, D: Desk>()
    ensures { (country : List ℕ) (books : ℕ → Book) (old new : Between L C (Service D)) (count : ℕ) (answer : Result Unit Error)
        (cut : Cut L.Reader L.Writer)
        → (served : ServesConnections (connections_by L.Reader.remaining L.Writer.contents L.gives L.takes L.refuses)
        (desk_server C.ticks D.seen) old new count answer)
        → AreServedAt D.seen country books served
        → IsSettled D.seen (desk_of old.handler)
        → served.all_served ≡ cut.before ++ cut.connection ∷ cut.after
        → cut.connection.exchanges ≡ cut.first ++ cut.others
        → IsKeptWithin (connections_by L.Reader.remaining L.Writer.contents L.gives L.takes L.refuses) C.ticks D.seen
        country books cut old served.last }
{}
