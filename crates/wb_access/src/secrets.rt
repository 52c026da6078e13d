//! Receipts and session secrets, from the random words of a turn.
ghost use Rattle.std.specs.Prelude.{◌≡◌, ◌<◌, ◌+◌, ◌*◌, ◌%◌};
ghost use Rattle.hex.specs.Hex.{encode_lower};
ghost use Rattle.wb_base.specs.Secrets.{receipt_text, secret_text, last_digits, both as both_of};

use wb_base::Words;

/// How many numbers a receipt may be.
const RECEIPTS: u128 = 10_000_000_000_000_000;

// The number that two words are, the first of them the high one.
fn both(high: u64, low: u64) -> u128
    ensures { result ≡ both_of high low }
{
    high as u128 * (1 << 64) + low as u128
}

// The last 16 decimal digits of a number.
fn digits(number: u64) -> [u8; 16]
    ensures { result ≡ last_digits 16 number }
{
    let mut room = [b'0'; 16];
    let mut rest = number;
    let mut at = 16;
    while at > 0 {
        at -= 1;
        room[at] = b'0' + (rest % 10) as u8;
        rest /= 10;
    }
    room
}

/// A receipt: 16 decimal digits, of the first two words.
#[tactic(auto, unfolding(wb_base::specs::Secrets::receipt_text))]
pub fn draw(words: &Words) -> [u8; 16]
    ensures { result ≡ receipt_text words.now }
{
    digits((both(words.0[0], words.0[1]) % RECEIPTS) as u64)
}

// The lower-case hexadecimal digits of bytes.
fn hex_of(bytes: &[u8; 16]) -> [u8; 32]
    ensures { result ≡ encode_lower bytes.now }
{
    let mut text = [0; 32];
    hex::encode_to_slice(bytes.as_slice(), &mut text).unwrap();
    text
}

/// A session's secret: 32 lower-case hexadecimal digits, of the last two words.
pub fn secret(words: &Words) -> [u8; 32]
    ensures { result ≡ secret_text words.now }
{
    hex_of(&both(words.0[2], words.0[3]).to_be_bytes())
}
