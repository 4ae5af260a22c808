//! Laws over the definitions alone: functions that do nothing, and whose clauses say the law. The machine of a history is the fold of its
//! committed runs (Rollback Installation); what a run takes away, a row names (RemoveFiles action; RemoveRegistryValues action;
//! ProcessComponents action); no row of a phase or of a walk changes a name twice, so what a run needs of free room can be added up name
//! by name.
#![tactic(auto)]

mod history_laws;
mod phase_laws;
mod plain_laws;

pub use history_laws::{
    every_run_comes_to_one_outcome, law_clients, law_machine, law_removal, law_settle,
};
pub use phase_laws::{clients_go_by_absence, files_go_by_rows, values_go_by_rows};
pub use plain_laws::{lawful_packages_have_codes, rows_are_plain, walks_are_plain};
