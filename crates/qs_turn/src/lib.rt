//! A lock whose word counts the calls made under it, and whose contracts tell the history of the
//! calls.
//!
//! A turn holds one [`Part`](qs_part::part::Part). Each call of the turn is one step of the part,
//! and no two steps are made at once. Threads call with passes: values of no bytes, in which a
//! thread carries what it knows, namely the calls that it has seen and those of them that it made.
//!
//! # Why it holds
//!
//! The lock has one word and one slot. (Around the word lie others that are never used.)
//!
//! - The word is `2n` where the turn is free after `n` calls, and `2n + 1` while the next call is
//!   made. To take the turn is to raise an even word by one with a single compare and exchange; to
//!   give it back is to raise the odd word by one.
//! - While the turn is free the part lies in the slot, and it stands for one list of just `n`
//!   calls: from the state that the turn was made with, by legal steps, one for each call. Nobody
//!   can reach the slot without taking the turn, and whoever has the turn is alone.
//! - What each pass has seen is a front of that list. A call extends it up to the call.
//! - Each pass that was made has a number, and each entry of the list has the number of the pass
//!   that called. A number belongs to one pass at a time, and to the first pass once the other was
//!   joined into it. So the own calls of a pass are the entries with its numbers, each once.
//! - The first pass knows how many numbers were made. Once it has them all back, no other pass can
//!   have the turn or have made a call that the first doesn't know. That is what `close` rests on.
//!
//! The list exists in the proofs alone; the word is all of it that is kept. `specs/Rule.antt` says
//! the rule exactly, and `specs/Steps.antt` what each kind of step does to it.
#![tactic(auto)]

pub mod crossing;
pub mod law;
pub mod lock;
mod sleepers;
pub mod turn;
pub mod view;
