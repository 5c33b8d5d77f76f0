// The words of scanning that every reader of a text shares: classes of bytes, the longest front
// of a class, a fixed text at the front, and numbers below 2^64 by their digits.

#![tactic(auto)]

mod class;
mod front;
mod radix;

pub use class::Class;
pub use front::{after_blanks, is_all, split_front, stripped};
pub use radix::{Radix, number};
