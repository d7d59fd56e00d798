// Demands 1 and 2 of fragmenting and reassembling, of the calls that programs in C make (c/include/pivsm.h).
// Statements and theorems; no code.
#![tactic(auto)]
