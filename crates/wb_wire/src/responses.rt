//! What a request is answered, before its bytes are made.
ghost use Rattle.std.specs.Prelude.{◌≡◌};
ghost use Rattle.wb_wire.specs.Responses.{refusal as refusal_of, reply_of};

use crate::faults::{fault_allow, fault_body, fault_status};
use crate::requests::WireNo;
use wb_model::{Body, PathNo, Told};

/// A response: what is told, the path whose methods it lists, and whether the connection closes after it.
#[derive(Drop)]
pub struct Response {
    pub told: Told,
    pub allow: Option<PathNo>,
    pub close: bool,
}

/// The response to bytes that ask nothing. It takes no memory.
pub fn refusal(no: &WireNo) -> Response
    ensures { reply_of result ≡ refusal_of no.now.fault no.now.close }
{
    Response {
        told: Told {
            status: fault_status(&no.fault),
            body: Body::short(fault_body(&no.fault)),
        },
        allow: fault_allow(&no.fault),
        close: no.close,
    }
}
