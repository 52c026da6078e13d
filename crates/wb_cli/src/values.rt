//! What a word says: a path, a number, a moment, a date, a lock.
ghost use Rattle.std.specs.Prelude.{◌≡◌, ◌↔◌, ◌<◌, ◌^◌, ℕ, ℤ, List, Option, decimal, Err, IfOk, IfSome, IsTrue, None, Some, option_map};
ghost use Rattle.wb_cli.specs.declared.plans.Lock.{Lock as LockOf};
ghost use Rattle.wb_cli.specs.CommandLine.{IsFileStore, IsStore, SaysDate, SaysFile, SaysLock, SaysMoment, SaysNumber, SaysPath};

use crate::plans::{Lock, PlanFault};
use crate::store_word::{StoreWord, is_etcd};
use itoa::Buffer;
use std::alloc::Global;
use wb_base::{Day, Moment, Tenant, Text, UserId};
use wb_terms::read_date;

// The path or the address that a word says.
pub(crate) fn path_of(alloc: Global, word: Option<&str>) -> Result<Text, PlanFault>
    ensures ok { IfOk result (SaysPath (option_map (λ word. word.now) word.entry)) }
    ensures usage { result ≡ Err PlanFault.Usage → (path : List ℕ) → SaysPath (option_map (λ word. word.now) word.entry) path → ⊥ }
{
    match word {
        None | Some("") => Err(PlanFault::Usage),
        Some(path) => Ok(Text::from_str(alloc, path)?),
    }
}

// The path of a file that a word says.
#[tactic(auto, using(crate::proofs::PlaceLemmas::file_path, crate::proofs::PlaceLemmas::no_file, crate::proofs::PlaceLemmas::path_file))]
pub(crate) fn file_of(alloc: Global, word: Option<&str>) -> Result<Text, PlanFault>
    ensures ok { IfOk result (SaysFile (option_map (λ word. word.now) word.entry)) }
    ensures usage { result ≡ Err PlanFault.Usage → (path : List ℕ) → SaysFile (option_map (λ word. word.now) word.entry) path → ⊥ }
{
    let path = path_of(alloc, word)?;
    if is_etcd(path.as_str()) {
        return Err(PlanFault::Usage);
    }
    Ok(path)
}

// The path of a file, where one is named.
pub(crate) fn file_at(alloc: Global, path: Option<&str>) -> Result<Option<Text>, PlanFault>
    ensures ok { IfOk result (λ store. (store ≡ option_map (λ path. path.now) path.entry) × IsFileStore store) }
    ensures usage { result ≡ Err PlanFault.Usage → IsFileStore (option_map (λ path. path.now) path.entry) → ⊥ }
{
    match path {
        None => Ok(None),
        Some(path) => Ok(Some(file_of(alloc, Some(path))?)),
    }
}

// Where rows are kept, where it is named.
pub(crate) fn store_at(alloc: Global, word: Option<&str>) -> Result<Option<StoreWord>, PlanFault>
    ensures ok { IfOk result (λ store. (store ≡ option_map (λ word. word.now) word.entry) × IsStore store) }
    ensures usage { result ≡ Err PlanFault.Usage → IsStore (option_map (λ word. word.now) word.entry) → ⊥ }
{
    let Some(word) = word else {
        return Ok(None);
    };
    match StoreWord::read(alloc, word)? {
        Some(store) => Ok(Some(store)),
        None => Err(PlanFault::Usage),
    }
}

// Whether two words are the same.
pub(crate) fn is_same(a: &str, b: &str) -> bool
    ensures { IsTrue result ↔ (a.now ≡ b.now) }
{
    a == b
}

// The number that stands in digits without a leading zero.
fn number_of(word: &str) -> Option<u64>
    ensures found { IfSome result (λ number. word.now ≡ decimal number) }
    ensures again { (number : ℕ) → number < 2 ^ 64 → word.now ≡ decimal number → result ≡ Some number }
{
    let number = match word.parse::<u64>() {
        Ok(number) => number,
        Err(_) => return None,
    };
    let mut digits = Buffer::new();
    if is_same(digits.format(number), word) {
        Some(number)
    } else {
        None
    }
}

// The number up to a greatest one that a word says.
pub(crate) fn number_to(greatest: u32, word: Option<&str>) -> Option<u32>
    ensures found { IfSome result (SaysNumber greatest (option_map (λ word. word.now) word.entry)) }
    ensures again { (number : ℕ) → SaysNumber greatest (option_map (λ word. word.now) word.entry) number → result ≡ Some number }
{
    match number_of(word?) {
        Some(number) if 1 <= number && number <= greatest as u64 => Some(number as u32),
        _ => None,
    }
}

// The lock that a word names, or a mutex.
pub(crate) fn lock_of(word: Option<&str>) -> Option<Lock>
    ensures found { IfSome result (SaysLock (option_map (λ word. word.now) word.entry)) }
    ensures none { result ≡ None → (lock : LockOf) → SaysLock (option_map (λ word. word.now) word.entry) lock → ⊥ }
{
    match word {
        None | Some("mutex") => Some(Lock::Mutex),
        Some("ticket") => Some(Lock::Ticket),
        Some(_) => None,
    }
}

// The moment that a word says.
pub(crate) fn moment_in(word: Option<&str>) -> Option<Moment>
    ensures found { IfSome result (SaysMoment (option_map (λ word. word.now) word.entry)) }
    ensures again { (moment : ℕ) → SaysMoment (option_map (λ word. word.now) word.entry) moment → result ≡ Some moment }
{
    Moment::try_new(number_of(word?)?)
}

// The tenant that a word says.
pub(crate) fn tenant_in(word: Option<&str>) -> Option<Tenant>
    ensures found { IfSome result (SaysNumber 64 (option_map (λ word. word.now) word.entry)) }
    ensures again { (tenant : ℕ) → SaysNumber 64 (option_map (λ word. word.now) word.entry) tenant → result ≡ Some tenant }
{
    Tenant::try_new(number_to(64, word)?)
}

// The user that a word says.
pub(crate) fn user_in(word: Option<&str>) -> Option<UserId>
    ensures found { IfSome result (SaysNumber 256 (option_map (λ word. word.now) word.entry)) }
    ensures again { (user : ℕ) → SaysNumber 256 (option_map (λ word. word.now) word.entry) user → result ≡ Some user }
{
    UserId::try_new(number_to(256, word)? as u16)
}

// The day whose date a word says.
pub(crate) fn day_in(word: Option<&str>) -> Option<Day>
    ensures found { IfSome result (SaysDate (option_map (λ word. word.now) word.entry)) }
    ensures again { (day : ℤ) → SaysDate (option_map (λ word. word.now) word.entry) day → result ≡ Some day }
{
    read_date(word?.as_bytes())
}
