//! The definitions of what a run means: its words, its outcome, the map after it, and its log and listings.
#![tactic(auto)]
