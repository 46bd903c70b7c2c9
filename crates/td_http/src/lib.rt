//! A desk that serves streams of HTTP/1.1 requests, connections one after another, and those that come to a listening socket.
//! The calls on requests and replies are those of the crates below.
#![tactic(auto)]

mod connection_laws;
mod connections;
mod desk_stream;
mod laws;
mod service;
mod sides;
mod sockets;
mod waiting;

pub use connection_laws::{acknowledged_connections_are_kept, agreeing_connections_tell_the_same};
pub use connections::{Connections, serve_connections};
pub use desk_stream::serve_stream;
pub use http_wire::{
    Clock, FramingError, Handler, Next, Reply, Request, StreamEnd, error_body, head_reply,
    json_reply, next_request, one_reading, serve_requests,
};
pub use laws::{
    acknowledged_replies_are_kept, agreeing_streams_tell_the_same, equal_requests_are_told_the_same,
};
pub use service::Service;
pub use sockets::{Incoming, serve_on};
pub use td_answers::{
    answer_is_told_in, fault_bytes, fault_is_told_in, refusal_is_told_in, reply_bytes,
};
pub use td_routes::{Allowed, Field, Route, WebFault, read_command, route};
