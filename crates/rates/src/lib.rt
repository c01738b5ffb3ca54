// Rates of counting: what each fixes, and which addresses it turns away.
//
// types      what a rate, a flag and an address are
// table      the frames in a second and in a day, and whether drop-frame may be asked for
// judging    what a rate and a drop flag turn away
#![tactic(auto)]

mod judging;
mod table;
mod types;

pub use judging::{judge, judge_two};
pub use table::{by_rate, frames_in_day, frames_in_second, is_yes, may_drop};
pub use types::{Address, Flag, Rate, SecondFrame};
