// The gate's side: a tag is detected, and its message read.
#![tactic(auto)]

mod call;
mod container;
mod copying;
mod detection;
mod exchange;
mod kept;
mod kind;
mod length_field;
mod link;
mod locating;
mod message;
mod reading;
mod reading_block;
mod session;
mod stop;
mod tlvs;
mod walk;

pub use detection::{Found, NotFound};
pub use reading::{NotRead, Received};
pub use refusal::{Cause, Refusal, Step};
pub use session::{Closed, Detected, Open, Session, Shut, Sighted};
