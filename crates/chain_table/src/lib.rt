// Rules 11.1 to 11.5, lengths on either side of a limit, as one table. No code.
#![tactic(auto)]
