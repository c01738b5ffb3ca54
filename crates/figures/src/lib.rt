// A record in figures: its address, and its groups up to the line feed, each with the space before it.
//
// spelling   character by character
#![tactic(auto)]

mod spelling;

pub use spelling::{address_text, groups_text};
