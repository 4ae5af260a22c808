//! Scripts of cases: their lines, steps and fields, how bytes are printed, and how what was written is compared with what
//! was expected.
#![tactic(auto)]

mod call;
mod calls;
mod comparison;
mod entries;
mod escape;
mod given;
mod heads;
mod program;
mod step;
mod stop;
mod volumes;

pub use call::Call;
pub use calls::{Caller, run_calls};
pub use comparison::{Verdict, compare};
pub use entries::{bytes, code, entry, is_system, name, path, root, value, value_entry};
pub use escape::{push_escaped, push_field, unescape};
pub use given::{Given, push_bytes};
pub use heads::{head, languages, numbers, push_head, push_languages, push_version, version};
pub use program::{Carrier, run_scripts};
pub use step::{fields, is_step, lines, push_line, push_step};
pub use stop::Stop;
pub use volumes::{empty_volume, holding, name_of, say_held};
