// The user's three demands, of the functions that open, wrap, unwrap and close. No code: the statements are in specs/, the proofs in proofs/.
#![tactic(auto)]
