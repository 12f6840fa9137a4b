//! The lines of scripts, each read by itself: from bytes to numbered lines and their words, and from
//! words to what they spell and what they give.
//!
//! This crate owns the spelling of numbers and of words (`specs/Numbers.antt`, `specs/Built.antt`,
//! `specs/Orders.antt`), the list of the words that are built (`Built`), and the form of the lines
//! of each first word (`specs/Forms.antt`). What a line means behind others is for `kn_script`.
//!
//! Two types are changed by their own calls alone: `Lines` is a text of which some lines were
//! passed, and `Words` a line of which some words were. Between any two calls, what is left of each
//! is a part of the same bytes up to their end, and the numbers of lines count those that were
//! passed over (`Unread` in `specs/Lines.antt`).
#![tactic(auto)]

mod built;
mod call_lines;
mod forms;
mod header_lines;
mod layout_lines;
mod lines;
mod numbers;
mod orders;
mod words;

pub use built::{Built, FirstWord, HeaderWord, OrderPart, TODAY, WHOLE};
pub use call_lines::make_call;
pub use forms::{Form, Wanted, make_form};
pub use header_lines::{FrameSizes, NameCounts, is_large_heap, is_outside};
pub use layout_lines::{is_long_layout, read_kind, read_layout};
pub use lines::{Line, Lines, Words};
pub use numbers::read_number;
pub use orders::{Actor, OrderWord, Until, is_until_outside, push_orders, read_order};
pub use words::read_first_word;
