//! The steps of a seat at the shared words: draw a ticket, wait for its turn, take the value out, and bring it back.
ghost use Rattle.std.specs.Prelude.{◌≡◌, ℕ, ◌<◌, ◌≤◌, ◌+◌, ◌^◌, [], ◌∷◌, true, false, Some, None, MatchBool, MatchOption};
ghost use Rattle.wb_ticket_lock.specs.Contents.{Content};
ghost use Rattle.wb_ticket_lock.specs.Histories.{with_ticket, with_turn, entered, times, places};

use crate::entry::{Guarded, View};
use crate::plays::{Ask, Draw, Look, PassOn, TicketRule, Transition};
use atomic_table::{Seat, Shared};
use std::hint::spin_loop;
use std::snapshot::Snapshot;
use std::sync::Wait;
use std::thread;

/// The words and the slot as all seats share them: a word for the next ticket, a word for the ticket that is served, words on which those
/// who wait sleep, and a slot with the value.
pub(crate) type Core<T, D, P> = Shared<
    Option<Guarded<T, D>>,
    View<T, D>,
    (u64, Snapshot<T>),
    TicketRule<P>,
>;

/// A seat at them.
pub(crate) type RawSeat<T, D> = Seat<Option<Guarded<T, D>>, View<T, D>>;

// How many words there are to wait on. As many tickets can be out, one a seat, and no two of them share a word.
const WAIT_WORDS: u64 = 64;

// How often a seat looks before it sleeps.
const LOOKS: u32 = 100;

// The word on which a ticket waits.
fn wait_word_of(ticket: u64) -> usize
    ensures { (2 ≤ result) × (result < 66) }
{
    (2 + ticket % WAIT_WORDS) as usize
}

// Draws a ticket, unless another thread drew it first or none is left.
fn draw<T: Drop, D: Drop, P: Transition<T, D>>(
    shared: &Core<T, D, P>,
    seat: &mut RawSeat<T, D>,
) -> Option<u64>
    requires here { (seat.old.table_id ≡ shared.now.table_id) × (shared.now.table_id.words ≡ 66) }
    requires free { (0 < seat.old.me.0.parts) × (seat.old.me.0.tickets ≡ []) × (seat.old.me.0.turn ≡ false) × (seat.old.me.1 ≡ []) }
    ensures same { (seat.new.table_id ≡ seat.old.table_id) × (seat.new.id ≡ seat.old.id) }
    ensures ticket { MatchOption result (seat.new.me ≡ seat.old.me) (λ k. (seat.new.me ≡ (with_ticket seat.old.me.0 k, [])) × (k + 1 < 2 ^ 64)) }
{
    let asked = shared.load::<Ask>(seat, 0);
    if asked == u64::MAX {
        return None;
    }
    let found = shared.compare_exchange::<Draw>(seat, 0, asked, asked + 1);
    if found == asked { Some(asked) } else { None }
}

// Draws until a ticket is drawn.
fn take_ticket<R: Wait, T: Drop, D: Drop, P: Transition<T, D>>(
    rt: &R,
    shared: &Core<T, D, P>,
    seat: &mut RawSeat<T, D>,
) -> u64
    requires here { (seat.old.table_id ≡ shared.now.table_id) × (shared.now.table_id.words ≡ 66) }
    requires free { (0 < seat.old.me.0.parts) × (seat.old.me.0.tickets ≡ []) × (seat.old.me.0.turn ≡ false) × (seat.old.me.1 ≡ []) }
    ensures same { (seat.new.table_id ≡ seat.old.table_id) × (seat.new.id ≡ seat.old.id) }
    ensures ticket { (seat.new.me ≡ (with_ticket seat.old.me.0 result, [])) × (result + 1 < 2 ^ 64) }
{
    for _ in rt.forever() {
        if let Some(ticket) = draw(shared, seat) {
            return ticket;
        }
        thread::yield_now();
    }
    unreachable!()
}

// Whether the ticket has its turn. If so, the seat takes the slot.
fn look<T: Drop, D: Drop, P: Transition<T, D>>(
    shared: &Core<T, D, P>,
    seat: &mut RawSeat<T, D>,
    ticket: u64,
) -> bool
    requires here { (seat.old.table_id ≡ shared.now.table_id) × (shared.now.table_id.words ≡ 66) }
    requires waits { (seat.old.me.0.tickets ≡ ticket ∷ []) × (seat.old.me.0.turn ≡ false) × (seat.old.me.1 ≡ []) }
    ensures same { (seat.new.table_id ≡ seat.old.table_id) × (seat.new.id ≡ seat.old.id) }
    ensures turn { MatchBool result ((f : Content T D) × (f.entries ≡ ticket) × (seat.new.me ≡ (with_turn seat.old.me.0 ticket f.value, (0, Some f) ∷ []))) (seat.new.me ≡ seat.old.me) }
{
    shared.load::<Look>(seat, 1) == ticket
}

// Looks some times.
fn watch<T: Drop, D: Drop, P: Transition<T, D>>(
    shared: &Core<T, D, P>,
    seat: &mut RawSeat<T, D>,
    ticket: u64,
) -> bool
    requires here { (seat.old.table_id ≡ shared.now.table_id) × (shared.now.table_id.words ≡ 66) }
    requires waits { (seat.old.me.0.tickets ≡ ticket ∷ []) × (seat.old.me.0.turn ≡ false) × (seat.old.me.1 ≡ []) }
    ensures same { (seat.new.table_id ≡ seat.old.table_id) × (seat.new.id ≡ seat.old.id) }
    ensures turn { MatchBool result ((f : Content T D) × (f.entries ≡ ticket) × (seat.new.me ≡ (with_turn seat.old.me.0 ticket f.value, (0, Some f) ∷ []))) (seat.new.me ≡ seat.old.me) }
{
    for _ in 0..LOOKS {
        if look(shared, seat, ticket) {
            return true;
        }
        spin_loop();
    }
    false
}

// Waits for the ticket's turn, and takes the slot. Its word is 1 while it sleeps, or is about to.
fn wait_turn<R: Wait, T: Drop, D: Drop, P: Transition<T, D>>(
    rt: &R,
    shared: &Core<T, D, P>,
    seat: &mut RawSeat<T, D>,
    ticket: u64,
)
    requires here { (seat.old.table_id ≡ shared.now.table_id) × (shared.now.table_id.words ≡ 66) }
    requires waits { (seat.old.me.0.tickets ≡ ticket ∷ []) × (seat.old.me.0.turn ≡ false) × (seat.old.me.1 ≡ []) }
    ensures same { (seat.new.table_id ≡ seat.old.table_id) × (seat.new.id ≡ seat.old.id) }
    ensures turn { (f : Content T D) × (f.entries ≡ ticket) × (seat.new.me ≡ (with_turn seat.old.me.0 ticket f.value, (0, Some f) ∷ [])) }
{
    let word = wait_word_of(ticket);
    for _ in rt.forever() {
        if watch(shared, seat, ticket) {
            return;
        }
        shared.store::<Ask>(seat, word, 1);
        if look(shared, seat, ticket) {
            return;
        }
        shared.park(rt, word, 1);
    }
    unreachable!()
}

// Takes the value out of the slot.
fn take_out<T: Drop, D: Drop, P: Transition<T, D>>(
    shared: &Core<T, D, P>,
    seat: &mut RawSeat<T, D>,
) -> T
    requires here { (seat.old.table_id ≡ shared.now.table_id) × (shared.now.table_id.words ≡ 66) }
    requires turn { (f : Content T D) × (seat.old.me.1 ≡ (0, Some f) ∷ []) }
    ensures same { (seat.new.table_id ≡ seat.old.table_id) × (seat.new.id ≡ seat.old.id) }
    ensures turn { seat.new.me ≡ (seat.old.me.0, (0, None) ∷ []) }
    ensures value { (f : Content T D) × (seat.old.me.1 ≡ (0, Some f) ∷ []) × (result ≡ f.value) }
{
    let found = shared.exchange(seat, 0, None);
    let Some(guarded) = found else { unreachable!() };
    let Guarded {
        value,
        entries: _,
        last: _,
    } = guarded;
    value
}

// Puts the value back into the slot, with one entry more beside it.
fn put_back<T: Drop, D: Drop, P: Transition<T, D>>(
    shared: &Core<T, D, P>,
    seat: &mut RawSeat<T, D>,
    ticket: u64,
    deed: D,
    value: T,
)
    requires here { (seat.old.table_id ≡ shared.now.table_id) × (shared.now.table_id.words ≡ 66) }
    requires turn { seat.old.me.1 ≡ (0, None) ∷ [] }
    requires room { ticket + 1 < 2 ^ 64 }
    ensures same { (seat.new.table_id ≡ seat.old.table_id) × (seat.new.id ≡ seat.old.id) }
    ensures turn { seat.new.me ≡ (seat.old.me.0, (0, Some (record { value = value; entries = ticket + 1; last = Some deed })) ∷ []) }
{
    let guarded = Guarded {
        value,
        entries: ticket + 1,
        last: Some(deed),
    };
    let hole = shared.exchange(seat, 0, Some(guarded));
    drop(hole);
}

// Gives the slot back, and lets the next ticket in.
fn pass_on<T: Drop, D: Drop, P: Transition<T, D>>(
    shared: &Core<T, D, P>,
    seat: &mut RawSeat<T, D>,
    ticket: u64,
)
    requires here { (seat.old.table_id ≡ shared.now.table_id) × (shared.now.table_id.words ≡ 66) }
    requires turn { (f : Content T D) × (x : T) × (d : D) × (f.entries ≡ ticket + 1) × (seat.old.me.1 ≡ (0, Some f) ∷ []) × (seat.old.me.0.took ≡ Some x) × (f.last ≡ Some d) × P.does x d f.value }
    requires mine { (seat.old.me.0.tickets ≡ ticket ∷ []) × (seat.old.me.0.turn ≡ true) }
    ensures same { (seat.new.table_id ≡ seat.old.table_id) × (seat.new.id ≡ seat.old.id) }
    ensures entry { (f : Content T D) × (x : T) × (d : D) × (seat.old.me.1 ≡ (0, Some f) ∷ []) × (seat.old.me.0.took ≡ Some x) × (f.last ≡ Some d) × (seat.new.me ≡ (entered seat.old.me.0 ticket x d f.value, [])) }
    ensures above { (i : ℕ) → 0 < times i (places seat.old.me.0.mine) → i < ticket }
{
    shared.fetch_add::<PassOn>(seat, 1, 1);
}

// Wakes whoever waits with a ticket.
fn wake<T: Drop, D: Drop, P: Transition<T, D>>(
    shared: &Core<T, D, P>,
    seat: &mut RawSeat<T, D>,
    ticket: u64,
)
    requires here { (seat.old.table_id ≡ shared.now.table_id) × (shared.now.table_id.words ≡ 66) }
    ensures same { (seat.new.table_id ≡ seat.old.table_id) × (seat.new.id ≡ seat.old.id) × (seat.new.me ≡ seat.old.me) }
{
    let word = wait_word_of(ticket);
    if shared.swap::<Ask>(seat, word, 0) == 1 {
        shared.wake_one(word);
    }
}

/// Draws a ticket and waits for its turn. The value is out then with the caller, who has to bring it back.
pub(crate) fn acquire<R: Wait, T: Drop, D: Drop, P: Transition<T, D>>(
    rt: &R,
    shared: &Core<T, D, P>,
    seat: &mut RawSeat<T, D>,
) -> (u64, T)
    requires here { (seat.old.table_id ≡ shared.now.table_id) × (shared.now.table_id.words ≡ 66) }
    requires free { (0 < seat.old.me.0.parts) × (seat.old.me.0.tickets ≡ []) × (seat.old.me.0.turn ≡ false) × (seat.old.me.1 ≡ []) }
    ensures same { (seat.new.table_id ≡ seat.old.table_id) × (seat.new.id ≡ seat.old.id) }
    ensures turn { seat.new.me ≡ (with_turn seat.old.me.0 result.0 result.1, (0, None) ∷ []) }
    ensures room { result.0 + 1 < 2 ^ 64 }
{
    let ticket = take_ticket(rt, shared, seat);
    wait_turn(rt, shared, seat, ticket);
    (ticket, take_out(shared, seat))
}

/// Brings the value back, and lets the next ticket in. The entry is the last of the seat's own.
pub(crate) fn release<T: Drop, D: Drop, P: Transition<T, D>>(
    shared: &Core<T, D, P>,
    seat: &mut RawSeat<T, D>,
    ticket: u64,
    deed: D,
    value: T,
)
    requires here { (seat.old.table_id ≡ shared.now.table_id) × (shared.now.table_id.words ≡ 66) }
    requires turn { (seat.old.me.0.turn ≡ true) × (seat.old.me.0.tickets ≡ ticket ∷ []) × (seat.old.me.1 ≡ (0, None) ∷ []) }
    requires room { ticket + 1 < 2 ^ 64 }
    requires done { (x : T) × (seat.old.me.0.took ≡ Some x) × P.does x deed value }
    ensures same { (seat.new.table_id ≡ seat.old.table_id) × (seat.new.id ≡ seat.old.id) }
    ensures entry { (x : T) → seat.old.me.0.took ≡ Some x → seat.new.me ≡ (entered seat.old.me.0 ticket x deed value, []) }
    ensures above { (i : ℕ) → 0 < times i (places seat.old.me.0.mine) → i < ticket }
{
    put_back(shared, seat, ticket, deed, value);
    pass_on(shared, seat, ticket);
    if shared.peek(0) != ticket + 1 {
        wake(shared, seat, ticket + 1);
    }
}
