// There and back: what is written reads as it was, and what is read is written as it stood; of numbers and pictures, the 64 bits, linear words,
// interval lines and packets. No code.
//
// proofs/Numbers  numbers and pictures, by mode
// proofs/Records  the 64 bits and a record; proofs/ByMode the same by mode, with the picture that is shown; proofs/SubFrames by sub-frame bits
// proofs/Words    linear words and records; proofs/Five when a word is refused by 5
// proofs/Lines    vertical interval lines and records
// proofs/Packets  packets, and record, type and second byte; proofs/Nineteen when a packet is refused by 19 or 23
// proofs/Eleven   when a write of any of the three is refused by 11
#![tactic(auto)]
