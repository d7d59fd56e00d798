// The user's demands 1 and 2 of fragmenting and reassembling, and of messages that are carried in fragments. No code.
#![tactic(auto)]
