// Requests for the clock: `number`, `in-second`, `address`, `distance`, `add`, `fields`, `kind-number`, `kind-fields`, `pair-number`, `pair-fields`, `high-number`,
// `high-fields`.
//
// types      what is asked for, and what is told
// answering  which request a line is, and its answer
// calling    the calls of the clock by mode, and the constructors of its kinds
#![tactic(auto)]

mod answering;
mod calling;
mod types;

pub use answering::answer;
