//! Packets of gdb's remote serial protocol: framing, requests and replies. The protocol is that of gdb's manual, "Remote
//! Serial Protocol".
#![tactic(auto)]

pub mod fields;
pub mod framing;
pub mod laws;
pub mod replies;
pub mod request;
pub mod shown;
pub mod stops;
pub mod target;

pub use crate::framing::{Framer, Heard, Place};
pub use crate::replies::{framed, reply_to};
pub use crate::request::{Query, Request, read_request};
pub use crate::shown::{bytes_shown, words_shown};
pub use crate::stops::{Stopped, done, failed, question, stop_reply};
pub use crate::target::description_reply;
