// The ciphers of a session as its calls use them: CMAC, and CBC under an encrypted counter with padding. Definitions and their
// laws, and no code.
#![tactic(auto)]
