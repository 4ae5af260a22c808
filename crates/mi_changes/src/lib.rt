//! Touches and single changes of maps: definitions and their laws alone, for any values.
#![tactic(auto)]
