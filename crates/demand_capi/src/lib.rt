// Demands 1 and 3 of the calls that programs in C make (c/include/pivsm.h), with the session's bytes handed on from call to call. Statements and theorems; no code.
#![tactic(auto)]
