//! The wire: the frames of a script, requests read from their bytes, and the bytes of replies (RFC 9112).
#![tactic(auto)]

mod closing;
mod commands;
mod cuts;
mod faults;
mod fields;
mod frame_line;
mod frames;
mod heads;
mod laws;
mod numbers;
mod paths;
mod read_frame;
mod read_text;
mod replies;
mod requests;
mod responses;
mod router;
mod segments;
mod written;

pub use faults::{fault_allow, fault_body, fault_closes, fault_status};
pub use frames::{FrameNo, FrameReader};
pub use heads::{HeadRead, read_head};
pub use laws::{one_frame, one_reading, one_setup, what_is_asked_fits};
pub use replies::{reply_head, reply_line};
pub use requests::{WireNo, read_request};
pub use responses::{Response, refusal};
pub use router::Routes;
pub use wb_model::{PathNo, ScriptFrame, WireFault};
pub use written::{Head, Line, Written};
