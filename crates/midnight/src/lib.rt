// The clock, stepped from midnight by the standard's rule, and that the closed forms of the crate `clock` are what it shows. No code.
//
// specs/Steps     one frame on, and what the clock shows n steps after midnight: what a reader has to believe
// proofs/Shown    what it shows is the closed form; numbers and addresses match one to one
// proofs/Answers  where an address is clear of the calls' refusals the clock shows it; the crate `pictures` goes on from here
#![tactic(auto)]
