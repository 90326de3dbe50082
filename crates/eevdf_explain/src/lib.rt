//! Why a workload is refused, and which of its keys nothing reads: what is wrong, which word or key is meant, where it stands in the text,
//! and what is expected there.
//!
//! A fault is found as a value, and put into words at the end. Reading costs nothing for it: the text is looked at again after a fault
//! alone. Nothing is written here: eevdf_tell shows an explanation with its line, for the programs.
#![tactic(auto)]

mod explanation;
mod known_words;
mod machine;
mod member_places;
mod name_places;
mod parts;
mod positions;
mod reason;
mod signatures;
mod text_kinds;
mod tokens;
mod unread;
mod value_faults;
mod word_faults;
mod word_reason;
mod word_texts;
mod written;

pub use explanation::{Explanation, Mark, explain, mark_at};
pub use positions::begins_character;
pub use text_kinds::{DocumentKind, document_kind, has_event};
pub use tokens::Place;
pub use unread::unread_keys;
pub use word_texts::told_word;
