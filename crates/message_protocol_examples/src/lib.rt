// Runs of the protocol that the checker computes, with ciphers small enough for that. No code.
#![tactic(auto)]
