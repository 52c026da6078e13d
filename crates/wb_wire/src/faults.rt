//! The replies to requests that are not read.
ghost use Rattle.std.specs.Prelude.{◌≡◌, ◌≤◌, length};
ghost use Rattle.wb_model.specs.Readings.{closes_always};
ghost use Rattle.wb_model.specs.Replies.{fault_told, fault_allow as listed_path};

use wb_model::{PathNo, WireFault};

#[tactic(auto, unfolding(wb_model::specs::Replies::fault_told, wb_model::specs::Refusals::not_found, wb_model::specs::Refusals::no_memory))]
/// The status code of a fault's reply (RFC 9110, section 15). It takes no memory.
pub fn fault_status(fault: &WireFault) -> u16
    ensures { result ≡ (fault_told fault.now).status }
{
    match fault {
        WireFault::BadHead => 400,
        WireFault::BadLength => 400,
        WireFault::NoLength => 411,
        WireFault::TooLarge => 413,
        WireFault::NoRoute => 404,
        WireFault::NoMethod(_) => 405,
        WireFault::BadJson => 400,
        WireFault::BadShape => 400,
        WireFault::Memory => 507,
    }
}

#[tactic(auto, unfolding(wb_model::specs::Replies::fault_told, wb_model::specs::Refusals::not_found, wb_model::specs::Refusals::no_memory, wb_model::specs::Refusals::refusal, json::specs::Print::escape_byte))]
/// The body of a fault's reply, JSON (RFC 8259). It takes no memory.
pub fn fault_body(fault: &WireFault) -> &'static [u8]
    ensures text { result.now ≡ (fault_told fault.now).body }
    ensures short { length result.now ≤ 64 }
{
    match fault {
        WireFault::BadHead => b"{\"code\":\"bad_head\"}",
        WireFault::BadLength => b"{\"code\":\"bad_length\"}",
        WireFault::NoLength => b"{\"code\":\"no_length\"}",
        WireFault::TooLarge => b"{\"code\":\"too_large\"}",
        WireFault::NoRoute => b"{\"code\":\"not_found\"}",
        WireFault::NoMethod(_) => b"{\"code\":\"no_method\"}",
        WireFault::BadJson => b"{\"code\":\"bad_json\"}",
        WireFault::BadShape => b"{\"code\":\"bad_shape\"}",
        WireFault::Memory => b"{\"code\":\"no_memory\"}",
    }
}

/// The path whose methods a fault's reply lists (RFC 9110, section 15.5.6). It takes no memory.
pub fn fault_allow(fault: &WireFault) -> Option<PathNo>
    ensures { result ≡ listed_path fault.now }
{
    match fault {
        WireFault::BadHead => None,
        WireFault::BadLength => None,
        WireFault::NoLength => None,
        WireFault::TooLarge => None,
        WireFault::NoRoute => None,
        WireFault::NoMethod(path) => Some(*path),
        WireFault::BadJson => None,
        WireFault::BadShape => None,
        WireFault::Memory => None,
    }
}

/// Whether the connection closes after a fault, whatever its head asks for.
pub fn fault_closes(fault: &WireFault) -> bool
    ensures { result ≡ closes_always fault.now }
{
    match fault {
        WireFault::BadHead => true,
        WireFault::BadLength => true,
        WireFault::NoLength => true,
        WireFault::TooLarge => true,
        WireFault::NoRoute => false,
        WireFault::NoMethod(_) => false,
        WireFault::BadJson => false,
        WireFault::BadShape => false,
        WireFault::Memory => false,
    }
}
