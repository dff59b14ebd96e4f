//! A value that many threads step in turn, so that all their steps are one history.
//!
//! `Turn` is a lock over the value. Each thread has a `Seat`. One call of `turn` makes one step on the value and adds
//! one entry to the record of all steps, which exists in proofs alone. The value always stands for the whole record,
//! and each seat has seen a prefix of it: a longer one after each of its turns, which ends with its own entry.
//!
//! The lock is one word, twice the number of entries, and one more while a turn is made. Fairness is not promised.
//!
//! | step  | the words                                  | the seat that knows more                          |
//! | enter | the history's word goes from even to odd   | it has the value, and has seen the whole record   |
//! | leave | the history's word goes from odd to even   | it gives the value back and has added its entry   |
//! | wait  | the count of those who sleep, up and down  | none                                              |
//! | split | none                                       | a new seat has seen what the first seat has seen  |
//! | join  | none                                       | the first seat keeps what the other seat has seen |
#![tactic(auto)]

mod closes;
mod guarded;
mod history;
mod known;
mod make;
mod opens;
mod seat;
mod stands_for;
mod takes;
mod turn;

pub use closes::Unclosed;
pub use opens::Seats;
pub use seat::{Seat, SeatOf};
pub use stands_for::StandsFor;
pub use turn::Turn;

#[cfg(test)]
mod tests;
