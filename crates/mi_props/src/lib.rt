//! Properties: a map from names to values, in which the system's values go before those of the command
//! line, and these before those of the Property table (Windows Installer reference: Property Reference,
//! Restrictions on Property Names, Order of Property Precedence).
#![tactic(auto)]

mod props;

pub use mi_text::{is_property_name, is_public_name};
pub use props::{PropError, PropFault, Props};
