//! Tests of the edges on real folders.
#![tactic(auto)]

#[cfg(test)]
mod device;
#[cfg(test)]
mod fake;
#[cfg(test)]
mod folder;
#[cfg(test)]
mod known;
#[cfg(test)]
mod link_tests;
#[cfg(test)]
mod many_files;
#[cfg(test)]
mod many_names;
#[cfg(test)]
mod power_tests;
#[cfg(test)]
mod source_tests;
#[cfg(test)]
mod step;
#[cfg(test)]
mod strange_tests;
#[cfg(test)]
mod volume_tests;
