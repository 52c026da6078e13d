//! The name of a store.
ghost use Rattle.std.specs.Prelude.{◌≡◌, ℕ, List, None, Ok, IfOk, IfSome};
ghost use Rattle.std.specs.List.{list_all};
ghost use Rattle.wb_etcd.specs.StoreNames.{is_endpoint_byte as is_of_endpoint, is_endpoint as is_endpoint_text, is_prefix_byte as is_of_prefix, is_prefix as is_prefix_text, endpoints_in, IsStoreName};

use std::alloc::Global;
use wb_base::{Memory, Text};
use wb_list::Items;

/// The endpoints of a store, each `HOST:PORT`, and the prefix of a host's keys in it.
#[derive(Drop)]
pub struct Store {
    /// The endpoints, in the order in which they are called.
    pub endpoints: Items<Text>,
    /// What stands before each key.
    pub prefix: Text,
}

// Whether a byte may stand in an endpoint.
fn is_endpoint_byte(byte: u8) -> bool
    ensures { result ≡ is_of_endpoint byte }
{
    matches!(byte, b'0'..=b'9' | b'A'..=b'Z' | b'a'..=b'z' | b'-' | b'.' | b':' | b'[' | b']')
}

// Whether all bytes may stand in an endpoint.
fn are_of_endpoint(bytes: &[u8]) -> bool
    ensures { result ≡ list_all is_of_endpoint bytes.now }
{
    bytes.iter().all(|byte| is_endpoint_byte(*byte))
}

// Whether a text is a host and a port.
fn is_endpoint(text: &str) -> bool
    ensures { result ≡ is_endpoint_text text.now }
{
    let bytes = text.as_bytes();
    are_of_endpoint(bytes) && bytes.contains(&b':')
}

// Whether a byte may stand in a prefix.
fn is_prefix_byte(byte: u8) -> bool
    ensures { result ≡ is_of_prefix byte }
{
    matches!(byte, b'0'..=b'9' | b'A'..=b'Z' | b'a'..=b'z' | b'-' | b'.' | b'_')
}

// Whether all bytes may stand in a prefix.
fn are_of_prefix(bytes: &[u8]) -> bool
    ensures { result ≡ list_all is_of_prefix bytes.now }
{
    bytes.iter().all(|byte| is_prefix_byte(*byte))
}

// Whether a text is a prefix.
fn is_prefix(text: &str) -> bool
    ensures { result ≡ is_prefix_text text.now }
{
    let bytes = text.as_bytes();
    are_of_prefix(bytes) && !bytes.is_empty()
}

// The endpoints between commas, where all are some.
fn read_endpoints(alloc: Global, text: &str) -> Result<Option<Items<Text>>, Memory>
    ensures { IfOk result (λ read. read ≡ endpoints_in text.now) }
{
    let mut endpoints = Items::new(alloc);
    let mut rest = text;
    while let Some((endpoint, others)) = rest.split_once(',') {
        if !is_endpoint(endpoint) {
            return Ok(None);
        }
        endpoints.push(Text::from_str(alloc, endpoint)?)?;
        rest = others;
    }
    if !is_endpoint(rest) {
        return Ok(None);
    }
    endpoints.push(Text::from_str(alloc, rest)?)?;
    Ok(Some(endpoints))
}

impl Store {
    /// The store that a text names, `etcd://HOST:PORT[,HOST:PORT..]/PREFIX`.
    pub fn read(alloc: Global, name: &str) -> Result<Option<Store>, Memory>
        ensures found { IfOk result (λ read. IfSome read (λ store. IsStoreName name.now store.endpoints store.prefix)) }
        ensures none { result ≡ Ok None → (endpoints : List (List ℕ)) (prefix : List ℕ) → IsStoreName name.now endpoints prefix → ⊥ }
    {
        let Some(rest) = name.strip_prefix("etcd://") else {
            return Ok(None);
        };
        let Some((hosts, prefix)) = rest.split_once('/') else {
            return Ok(None);
        };
        if !is_prefix(prefix) {
            return Ok(None);
        }
        let Some(endpoints) = read_endpoints(alloc, hosts)? else {
            return Ok(None);
        };
        Ok(Some(Store {
            endpoints,
            prefix: Text::from_str(alloc, prefix)?,
        }))
    }
}
