//! HTTP/1.1 on the wire: requests read from bytes, replies written as bytes, and streams of them. Nothing
//! here knows a desk.
#![tactic(auto)]

mod clock;
mod framing;
mod input;
mod laws;
mod next;
mod reading;
mod replies;
mod reply;
mod request;
mod stream;

pub use clock::Clock;
pub use framing::FramingError;
pub use laws::one_reading;
pub use next::{Next, next_request};
pub use reply::{Reply, error_body, head_reply, json_reply};
pub use request::Request;
pub use stream::{Handler, StreamEnd, serve_requests};
