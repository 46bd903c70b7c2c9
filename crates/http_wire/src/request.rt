//! A request as it was read.
use http::Method;

/// A request that came whole.
#[derive(Drop)]
pub struct Request {
    pub method: Method,
    /// The request target as it was sent, a query included.
    pub target: Vec<u8>,
    pub body: Vec<u8>,
    /// Whether the stream stops after the reply.
    pub close: bool,
}
