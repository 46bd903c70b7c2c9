//! Streams of requests served by a handler that knows no desk, with ample memory.
mod ends;
mod last_reads;
mod long_replies;
mod replies_together;
