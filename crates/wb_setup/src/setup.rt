//! The setup of a host.
ghost use Rattle.std.specs.Prelude.{◌≡◌, ◌≢◌, true, Ok, Err, IfOk, IfErr, Some};
ghost use Rattle.wb_model.specs.Readable.{are_stored};
ghost use Rattle.wb_model.specs.SetUps.{AreSetUp};
ghost use Rattle.wb_setup.specs.Keys.{AreInOrder};
ghost use Rattle.wb_setup.specs.Setups.{setup as setup_of, with_forms as by_forms, with_tenants as by_tenants};
ghost use Rattle.wb_setup.specs.GivesLists.{GivesLists};
ghost use Rattle.wb_setup.specs.declared.setup.SetupFault.TheVariants.{Memory as NoMemory};

use crate::given::GivenTenant;
use crate::put::lists_of;
use crate::reading::read_tenants;
use crate::rules::{read_forms, rule_2, rule_3, rule_4, rule_5, rule_7, rule_8, rule_9};
use crate::toml_values::read_document;
use std::alloc::Global;
use wb_base::Memory;
use wb_json::ReadError;
use wb_list::Items;
use wb_model::{FormItem, Lists};

/// Why bytes are no setup.
#[derive(Clone, Copy, Debug, PartialEq, Eq)]
pub enum SetupFault {
    /// They are no TOML document.
    Text,
    /// The least rule that is broken.
    Rule(u8),
    /// There was no memory.
    Memory,
}

impl From<Memory> for SetupFault {
    ghost from_gives = { λ _ e. e ≡ NoMemory };

    fn from(_: Memory) -> SetupFault {
        SetupFault::Memory
    }
}

/// A setup: the lists of its tenants.
#[derive(Drop)]
pub struct Setup {
    pub lists: Lists,
}

// The lists, by the rules after the sixth.
fn with_forms(
    alloc: Global,
    tenants: &[GivenTenant],
    forms: Items<FormItem>,
) -> Result<Lists, SetupFault>
    ensures lists { GivesLists (by_forms tenants.now (Some forms)) result }
    ensures order { IfOk result (λ lists. AreInOrder lists) }
{
    if !rule_7(tenants) {
        return Err(SetupFault::Rule(7));
    }
    if !rule_8(tenants) {
        return Err(SetupFault::Rule(8));
    }
    if !rule_9(tenants) {
        return Err(SetupFault::Rule(9));
    }
    Ok(lists_of(alloc, tenants, forms)?)
}

// The lists, by the rules after the first.
fn with_tenants(alloc: Global, tenants: &[GivenTenant]) -> Result<Lists, SetupFault>
    ensures lists { GivesLists (by_tenants (Some tenants.now)) result }
    ensures order { IfOk result (λ lists. AreInOrder lists) }
{
    if !rule_2(tenants) {
        return Err(SetupFault::Rule(2));
    }
    if !rule_3(tenants) {
        return Err(SetupFault::Rule(3));
    }
    if !rule_4(tenants) {
        return Err(SetupFault::Rule(4));
    }
    if !rule_5(tenants) {
        return Err(SetupFault::Rule(5));
    }
    match read_forms(alloc, tenants) {
        Ok(forms) => with_forms(alloc, tenants, forms),
        Err(ReadError::Other) => Err(SetupFault::Rule(6)),
        Err(ReadError::Memory) => Err(SetupFault::Memory),
    }
}

impl Setup {
    /// The setup that bytes are, or why they are none: no TOML document, or the least rule that is broken.
    pub fn read(alloc: Global, bytes: &[u8]) -> Result<Setup, SetupFault>
        ensures ok { IfOk result (λ s. setup_of bytes.now ≡ Ok s.lists) }
        ensures order { IfOk result (λ s. AreInOrder s.lists) }
        ensures set_up { IfOk result (λ s. AreSetUp s.lists) }
        ensures stored { IfOk result (λ s. are_stored s.lists ≡ true) }
        ensures fault { IfErr result (λ e. e ≢ SetupFault.Memory → setup_of bytes.now ≡ Err e) }
    {
        let value = match read_document(alloc, bytes) {
            Ok(value) => value,
            Err(ReadError::Other) => return Err(SetupFault::Text),
            Err(ReadError::Memory) => return Err(SetupFault::Memory),
        };
        let tenants = match read_tenants(alloc, &value) {
            Ok(tenants) => tenants,
            Err(ReadError::Other) => return Err(SetupFault::Rule(1)),
            Err(ReadError::Memory) => return Err(SetupFault::Memory),
        };
        match with_tenants(alloc, tenants.as_slice()) {
            Ok(lists) => Ok(Setup { lists }),
            Err(fault) => Err(fault),
        }
    }
}
