//! Laws of what a run means, for those who read its definitions: what each phase leaves, name by name, and what a walk leaves.
#![tactic(auto)]
