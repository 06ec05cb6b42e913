//! The calls of FrsTransport as stubs: what a request and a reply are as bytes, after [MS-FRS2].
//!
//! Read [`FrsRequest`] and [`FrsReply`] first: the nine calls and their answers. [`read_request`]
//! and [`read_reply`] take the one value that a stub is, or name the first item that is none;
//! [`write_request`] and [`write_reply`] write it. The layouts are listed in `specs/Requests.antt`
//! and `specs/Replies.antt`. Layouts and limits are this project's profile.
#![tactic(auto)]

mod arrays;
mod fields;
mod interval;
mod laws;
mod refusal;
mod reply;
mod reply_reading;
mod reply_writing;
mod request;
mod request_reading;
mod request_writing;
mod update;

pub use laws::{replies_are_exact, requests_are_exact};
pub use refusal::{StubBad, StubError};
pub use reply::FrsReply;
pub use reply_reading::read_reply;
pub use reply_writing::write_reply;
pub use request::FrsRequest;
pub use request_reading::read_request;
pub use request_writing::write_request;
