//! The segments of a path, and the numbers that stand in it.
ghost use Rattle.std.specs.Prelude.{◌≡◌, ◌||◌, not, is_some};
ghost use Rattle.wb_model.specs.Routes.{segments, is_name as name_test, path_number as number_in, are_numbers as numbers_test, number_under as number_for};

use crate::cuts::cut;
use crate::numbers::number_of;

// Whether a segment is a name in braces.
fn is_name(segment: &[u8]) -> bool
    ensures { result ≡ name_test segment.now }
{
    !segment.is_empty() && segment[0] == b'{'
}

// The number that a segment is.
fn path_number(text: &[u8]) -> Option<u32>
    ensures { result ≡ number_in text.now }
{
    match number_of(text) {
        Some(number) => {
            if 1 <= number && number <= 4_294_967_295 {
                Some(number as u32)
            } else {
                None
            }
        }
        None => None,
    }
}

// Whether a segment of a path may stand for one of the pattern.
fn fits(name: &[u8], text: &[u8]) -> bool
    ensures { result ≡ (not (name_test name.now) || is_some (number_in text.now)) }
{
    !is_name(name) || path_number(text).is_some()
}

/// Whether each segment of a path that stands for a name of the pattern is a number.
pub fn are_numbers(pattern: &[u8], path: &[u8]) -> bool
    ensures { result ≡ numbers_test (segments pattern.now) (segments path.now) }
{
    let (name, names) = cut(pattern, b'/');
    let (text, texts) = cut(path, b'/');
    if !fits(name, text) {
        return false;
    }
    match names {
        Some(names) => match texts {
            Some(texts) => are_numbers(names, texts),
            None => true,
        },
        None => true,
    }
}

/// The number that stands in a path for a name of the pattern, and 1 where none does.
pub fn number_under(pattern: &[u8], path: &[u8], wanted: &[u8]) -> u32
    ensures { result ≡ number_for (segments pattern.now) (segments path.now) wanted.now }
{
    let (name, names) = cut(pattern, b'/');
    let (text, texts) = cut(path, b'/');
    if name == wanted {
        return path_number(text).unwrap_or(1);
    }
    match names {
        Some(names) => match texts {
            Some(texts) => number_under(names, texts, wanted),
            None => 1,
        },
        None => 1,
    }
}
