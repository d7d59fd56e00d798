// The four calls as definitions, and the demands about them. No code.
#![tactic(auto)]
