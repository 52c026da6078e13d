//! The host's health, and what is told where no tenant is there.
ghost use Rattle.std.specs.Prelude.{◌≡◌, Ok, IfOk};
ghost use Rattle.wb_model.specs.Tenants.{healthy as healthy_told, without_tenant as told_without};

use std::alloc::Global;
use wb_base::Memory;
use wb_model::{Body, Told};
use wb_views::{Refusal, refuse};

/// The reply that tells that the host serves. It takes no memory.
pub fn healthy() -> Told
    ensures { result ≡ healthy_told }
{
    Told {
        status: 200,
        body: Body::short(b"{\"status\":\"ok\"}"),
    }
}

/// The reply where the tenant of a number is not there, 0 standing for none that is named: the host's health, which takes no
/// memory, or that nothing is found.
pub fn without_tenant(alloc: Global, t: u32) -> Result<Told, Memory>
    ensures reply { IfOk result (λ told. told ≡ told_without t) }
    ensures health { t ≡ 0 → result ≡ Ok healthy_told }
{
    if t == 0 {
        Ok(healthy())
    } else {
        refuse(alloc, Refusal::NotFound)
    }
}
