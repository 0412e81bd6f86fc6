//! The lock, and the passes that threads call with.
ghost use Rattle.std.specs.Prelude.{◌≡◌, ◌+◌, ◌-◌, ◌^◌, ◌<◌, true, false, [], Some, IfOk};
ghost use Rattle.qs_part.specs.Histories.{lawful, StandsFor};
ghost use Rattle.qs_turn.specs.Steps.{Took, HasTurn, CanGive, added};
ghost use Rattle.qs_turn.specs.Words.{opening, is_first, seen, own, out, IsPassOf, Calls, Joined};

use crate::law::{Fork, Give, Law, Look, Meet, Take};
use crate::lock::{Lock, Token};
use crate::sleepers::Sleepers;
use crate::view::{Said, Slot, View};
use atomic_table::{Seat, Table};
use qs_bytes::Memory;
use qs_part::part::Part;
use std::alloc::Global;
use std::hint::spin_loop;
use std::snapshot::Snapshot;
use std::sync::Wait;

/// A part behind a lock that counts the calls.
///
/// Contracts see which lock it is and the state that the part had when the turn was made,
/// `opening`. It may be shared among threads; each calls with a pass of its own.
pub type Turn<P> = Lock<
    Slot<P, <P as Part>::Op, <P as Part>::Reply>,
    View<P, <P as Part>::Op, <P as Part>::Reply>,
    Snapshot<P>,
    Law,
>;

/// What a thread calls a turn with. It has no bytes, and may be sent to another thread.
///
/// Contracts see the history that the pass has seen, `seen`, its own calls in it, `own`, whether it
/// is the first pass of its turn, and of the first pass how many passes are `out`.
pub type Pass<P> = Token<
    Slot<P, <P as Part>::Op, <P as Part>::Reply>,
    View<P, <P as Part>::Op, <P as Part>::Reply>,
>;

type PassSeat<P> = Seat<
    Slot<P, <P as Part>::Op, <P as Part>::Reply>,
    View<P, <P as Part>::Op, <P as Part>::Reply>,
>;

/// How many words the table has. One is used; the others keep it apart from what lies around them in
/// memory, so that threads which call different turns don't slow one another down.
const WORDS: usize = 16;

/// The place of the word that is used.
const WORD: usize = 8;

/// How often a thread looks whether the turn gets free before it sleeps.
const LOOKS: u32 = 8;

/// How many pauses it makes before each look, which is about half a microsecond. A thread that looks seldom
/// leaves the word to the one that calls.
const PAUSES: u32 = 100;

/// Lets some time go by.
fn pause() {
    for _ in 0..PAUSES {
        spin_loop();
    }
}

impl<P: Part> Turn<P> {
    /// A turn for the part, and its first pass, which has seen no call.
    ///
    /// Where memory is refused the part is dropped.
    pub fn new(alloc: Global, part: P) -> Result<(Turn<P>, Pass<P>), Memory>
        ensures turn { IfOk result (λ r. (opening r.0 ≡ part) × IsPassOf r.0 r.1) }
        ensures first { IfOk result (λ r. (is_first r.1 ≡ true) × (seen r.1 ≡ []) × (own r.1 ≡ []) × (out r.1 ≡ 0)) }
    {
        let about = Snapshot::of(&part);
        let mut slots = Vec::new(alloc);
        slots.push(Slot {
            part: Some(part),
            said: None,
        })?;
        match Table::new(alloc, &[0; WORDS], slots, &about) {
            Ok((table, seat)) => Ok((
                Lock {
                    table,
                    sleepers: Sleepers::none(),
                },
                Token { seat },
            )),
            Err(_refused) => Err(Memory),
        }
    }

    /// Makes one call: one step of the part, which no other step comes between.
    ///
    /// `request` is the caller's number for it, which stands in the history; the part doesn't see
    /// it. The call may wait for the turn; where it is free, no system call is made. It takes no
    /// memory and has no refusal of its own. After 2^63 - 1 calls of the turn the next one never
    /// returns.
    pub fn call<R: Wait>(&self, rt: &R, pass: &mut Pass<P>, request: u64, op: P::Op) -> P::Reply
        requires turn { IsPassOf self.now pass.old }
        requires fits { P.can (P.fixed_of (opening self.now)) op }
        ensures turn { IsPassOf self.now pass.new }
        ensures call { Calls (lawful P.fixed_of P.can P.legal) (opening self.now) pass.old request op result pass.new }
    {
        let (word, mut part) = self.take(rt, &mut pass.seat);
        let asked = Snapshot::of(&op);
        let reply = part.step(op);
        let said = Said {
            request,
            op: asked,
            reply: Snapshot::of(&reply),
        };
        self.give(&mut pass.seat, word, part, said);
        reply
    }

    /// Takes the turn, and answers the word as it was: twice the number of calls so far.
    fn turn_word<R: Wait>(&self, rt: &R, seat: &mut PassSeat<P>) -> u64
        requires { (seat.old.table_id ≡ self.now.table) × (seat.old.me.0.opening ≡ Some (opening self.now)) }
        ensures seat { seat.new.table_id ≡ seat.old.table_id }
        ensures took { Took (lawful P.fixed_of P.can P.legal) (opening self.now) result seat.old.me seat.new.me }
        ensures room { result < 2 ^ 64 - 2 }
    {
        for _ in rt.forever() {
            let word = self.table.shared.peek(WORD);
            if word % 2 == 0 && word < u64::MAX - 1 {
                let found = self
                    .table
                    .shared
                    .compare_exchange::<Take>(seat, WORD, word, word + 1);
                if found == word {
                    return word;
                }
            } else {
                self.wait(rt);
            }
        }
        unreachable!()
    }

    /// Whether the turn is free. It is never free after its last call.
    fn is_free(&self) -> bool {
        let word = self.table.shared.peek(WORD);
        word % 2 == 0 && word < u64::MAX - 1
    }

    /// Whether the turn gets free within some looks at it.
    fn is_soon_free(&self) -> bool {
        for _ in 0..LOOKS {
            pause();
            if self.is_free() {
                return true;
            }
        }
        false
    }

    /// Waits until the turn was seen free. Another thread may have taken it since.
    fn wait<R: Wait>(&self, rt: &R) {
        if self.is_soon_free() {
            return;
        }
        for _ in rt.forever() {
            self.sleepers.announce();
            if self.is_free() {
                return;
            }
            self.sleepers.sleep(rt);
        }
    }

    /// Takes the turn and the part.
    fn take<R: Wait>(&self, rt: &R, seat: &mut PassSeat<P>) -> (u64, P)
        requires { (seat.old.table_id ≡ self.now.table) × (seat.old.me.0.opening ≡ Some (opening self.now))
            × (seat.old.me.1 ≡ []) }
        ensures seat { seat.new.table_id ≡ seat.old.table_id }
        ensures holds { HasTurn (lawful P.fixed_of P.can P.legal) (opening self.now) result.0 result.1 seat.old.me.0
            seat.new.me }
        ensures room { result.0 < 2 ^ 64 - 2 }
    {
        let word = self.turn_word(rt, seat);
        let Slot { part, said: _ } = self.table.shared.exchange(
            seat,
            0,
            Slot {
                part: None,
                said: None,
            },
        );
        let Some(part) = part else { unreachable!() };
        (word, part)
    }

    /// Gives the part and the turn back, and says which call was made.
    fn give(&self, seat: &mut PassSeat<P>, word: u64, part: P, said: Said<P::Op, P::Reply>)
        requires seat { seat.old.table_id ≡ self.now.table }
        requires gives { CanGive (lawful P.fixed_of P.can P.legal) word part said seat.old.me }
        requires room { word < 2 ^ 64 - 2 }
        ensures seat { seat.new.table_id ≡ seat.old.table_id }
        ensures added { seat.new.me ≡ (added seat.old.me.0 said.request said.op.value said.reply.value, []) }
    {
        let home = Slot {
            part: Some(part),
            said: Some(said),
        };
        self.table.shared.exchange(seat, 0, home);
        self.table.shared.store::<Give>(seat, WORD, word + 2);
        self.sleepers.wake_one();
    }

    /// Another pass of the turn, which has seen what this one has and has made no call.
    ///
    /// It takes no memory.
    pub fn split(&self, pass: &mut Pass<P>) -> Pass<P>
        requires turn { IsPassOf self.now pass.old }
        requires first { is_first pass.old ≡ true }
        ensures turn { IsPassOf self.now pass.new × IsPassOf self.now result }
        ensures first { (is_first pass.new ≡ true) × (seen pass.new ≡ seen pass.old) × (own pass.new ≡ own pass.old)
            × (out pass.new ≡ out pass.old + 1) }
        ensures given { (is_first result ≡ false) × (seen result ≡ seen pass.old) × (own result ≡ []) }
    {
        let seat = self.table.shared.split_seat::<Fork>(&mut pass.seat);
        Token { seat }
    }

    /// Joins another pass into the first one, whose calls are its own from then on.
    ///
    /// Of the two histories the longer is kept, which begins with the other. It takes no memory.
    pub fn join(&self, pass: &mut Pass<P>, other: Pass<P>)
        requires turn { IsPassOf self.now pass.old × IsPassOf self.now other }
        requires first { (is_first pass.old ≡ true) × (is_first other ≡ false) }
        ensures turn { IsPassOf self.now pass.new }
        ensures joined { Joined pass.old other pass.new }
    {
        let Token { seat } = other;
        self.table.shared.join_seat::<Meet>(&mut pass.seat, seat);
        self.table.shared.load::<Look>(&mut pass.seat, WORD);
    }

    /// Gives the part back, once every other pass was joined into this one.
    ///
    /// The part stands for the whole history, and each call in it is one of the pass's own.
    pub fn close(self, pass: Pass<P>) -> P
        requires turn { IsPassOf self pass }
        requires first { (is_first pass ≡ true) × (out pass ≡ 0) }
        ensures part { StandsFor (lawful P.fixed_of P.can P.legal) (opening self) (seen pass) result }
        ensures own { own pass ≡ seen pass }
    {
        let Lock { table, sleepers: _ } = self;
        let Token { seat } = pass;
        let mut closed = table.close_with(seat);
        let Slot { part, said: _ } = closed.take(0);
        closed.free();
        let Some(part) = part else { unreachable!() };
        part
    }
}
