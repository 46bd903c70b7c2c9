//! Requests that no transcript shows, with ample memory.
mod asked;
mod one_form;
mod reading;
