//! What was written to each zone of a session, by what was done: definitions alone.
#![tactic(auto)]
