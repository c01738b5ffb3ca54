// Lists of bits, low bit first, and the numbers that they stand for. No code: definitions in specs/, laws for every width in proofs/.
#![tactic(auto)]
