// What a reader does over many bits: the states that feeding reaches, blocks cut anywhere, and code words end to end. No code.
//
// specs/Reach          the states that feeding can bring a fresh reader to
// specs/Counting       the steps in which a bit is taken
// specs/Cuts           a run fed in blocks
// specs/Following      what demand 3 asks
// proofs/Reached       the check of a state passes exactly for those that feeding reaches
// proofs/Thirteen      13 is answered exactly for the others
// proofs/CutAnywhere   a run in blocks, cut anywhere, is its single steps
// proofs/StepsCounted  a block's count is of the steps in which a bit is taken
// proofs/Apart         places at which an accepted linear word never has two ones side by side, on which demand 3 rests
// proofs/Synced        no window is a word both forward and backward
// proofs/Demand3       each code word is reported, as itself, at its 80th bit, whichever way it runs
// proofs/Turns         a run that turns
// proofs/Tight         after fewer bits it could not be demanded
// proofs/Impostors     one that never reports, refuses each word, reports one fixed address or gives something else for some words fails it
#![tactic(auto)]
