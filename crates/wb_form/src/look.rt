//! Looking into a JSON object.
ghost use Rattle.std.specs.Prelude.{◌≡◌, ◌<◌, ◌≤◌, ◌&&◌, nat_le, length, option_map, option_and_then, map, codes, IfSome};
ghost use Rattle.std.specs.List.{list_all};
ghost use Rattle.serde_json.specs.View.{view};
ghost use Rattle.serde_json.specs.Find.{get, as_str};
ghost use Rattle.wb_base.specs.FormShape.{size as size_of, has_only as only_these, flag_at as flag_under, max_at as max_under, number_at};
ghost use Rattle.wb_base.specs.FormRanges.{are_points, is_least, is_id as id_test, is_id_byte as id_byte_test, is_label as label_test};

use serde_json::Value;

/// How many members an object has.
pub fn size(value: &Value) -> usize
    ensures { result ≡ size_of (view value.now) }
{
    match value {
        Value::Object(members) => members.len(),
        _ => 0,
    }
}

/// Whether there is no key but these.
pub fn has_only(value: &Value, keys: &[&str]) -> bool
    requires { length keys.now < 100 }
    ensures { result ≡ only_these (map (λ k. k.now) keys.now) (view value.now) }
{
    let mut count = 0;
    for key in keys {
        if value.get(*key).is_some() {
            count += 1;
        }
    }
    size(value) == count
}

/// The text under a key.
pub fn text_at<'a>(value: &'a Value, key: &str) -> Option<&'a str>
    ensures { option_map (λ s. s.now) result ≡ option_and_then as_str (get key.now (view value.now)) }
{
    match value.get(key) {
        Some(found) => found.as_str(),
        None => None,
    }
}

/// The truth value under a key, false where it is left out.
pub fn flag_at(value: &Value, key: &str) -> Option<bool>
    ensures { result ≡ flag_under key.now (view value.now) }
{
    match value.get(key) {
        Some(found) => found.as_bool(),
        None => Some(false),
    }
}

/// The greatest number of bytes of a text.
pub fn max_at(value: &Value) -> Option<u32>
    ensures { result ≡ max_under (view value.now) }
{
    match value.get("max") {
        Some(found) => match found.as_u64() {
            Some(max) => if 1 <= max && max <= 65_536 {
                Some(max as u32)
            } else {
                None
            },
            None => None,
        },
        None => Some(4096),
    }
}

// The whole number from 1 to a limit under a key.
fn whole_at(value: &Value, key: &str, most: u64) -> Option<u64>
    ensures number { result ≡ number_at (λ n. nat_le 1 n && nat_le n most) key.now (view value.now) }
    ensures most { IfSome result (λ n. n ≤ most) }
{
    match value.get(key) {
        Some(found) => match found.as_u64() {
            Some(number) => if 1 <= number && number <= most {
                Some(number)
            } else {
                None
            },
            None => None,
        },
        None => None,
    }
}

/// The points of a part.
pub fn points_at(value: &Value) -> Option<u16>
    ensures { result ≡ number_at are_points (codes "points") (view value.now) }
{
    match whole_at(value, "points", 1_000) {
        Some(points) => Some(points as u16),
        None => None,
    }
}

/// The points that a score wants.
pub fn least_at(value: &Value) -> Option<u32>
    ensures { result ≡ number_at is_least (codes "least") (view value.now) }
{
    match whole_at(value, "least", 16_000) {
        Some(least) => Some(least as u32),
        None => None,
    }
}

fn is_id_byte(byte: u8) -> bool
    ensures { result ≡ id_byte_test byte }
{
    byte.is_ascii_lowercase() || byte.is_ascii_digit() || byte == b'_'
}

fn all_id_bytes(bytes: &[u8]) -> bool
    ensures { result ≡ list_all id_byte_test bytes.now }
{
    for byte in bytes {
        if !is_id_byte(*byte) {
            return false;
        }
    }
    true
}

/// Whether a text can be an id.
pub fn is_id(text: &str) -> bool
    ensures { result ≡ id_test text.now }
{
    let bytes = text.as_bytes();
    1 <= bytes.len() && bytes.len() <= 32 && all_id_bytes(bytes)
}

/// Whether a text can be a label or a title.
pub fn is_label(text: &str) -> bool
    ensures { result ≡ label_test text.now }
{
    1 <= text.len() && text.len() <= 256
}
