//! What is asked of each feature of a package, and which are installed after the run: the lists of the command, levels and
//! conditions, parents, and what is recorded (Feature Table; Condition Table; ADDLOCAL, REMOVE, ADDDEFAULT and REINSTALL
//! Properties; INSTALLLEVEL Property).
#![tactic(auto)]

mod asking;
mod chain;
mod record;
mod settings;

pub use asking::{Asked, requests};
pub use mi_wishes::{FeatureChoice, Request, SelectError, has_attribute, holds};
pub use record::{Record, product_code, record_of};
