//! Whole lives of a machine, and single runs.

ghost use Rattle.mi_laws.specs.Clients.{ClientsNameProducts, LastClientsGo};
ghost use Rattle.mi_laws.specs.Machines.{MachineIsFold};
ghost use Rattle.mi_laws.specs.Moments.{SettlesByEvents};
ghost use Rattle.mi_laws.specs.Outcomes.{RunsComeToOne};
ghost use Rattle.mi_laws.specs.Removal.{RunsTakeByRows};

/// In every history from the empty volume the machine is the fold of the runs that committed, in order, from the empty machine. Each run
/// that answered Done is among them; each walk of them is over a package without a fault, and isn't refused (Installation).
pub fn law_machine()
    ensures { MachineIsFold }
{}

/// Whatever the clauses of settling allow, at a moment or at its end, is an event (Rollback Installation).
pub fn law_settle()
    ensures { SettlesByEvents }
{}

/// What a run takes away, rows name, if its walk isn't refused: a file goes by a row of File or DuplicateFile of a component that leaves, or
/// by a row of RemoveFile in force; a value by a row of Registry of one that leaves, by a row of RemoveRegistry of a local one, or as the
/// count of one that leaves. A component that leaves isn't permanent, and has no other client (RemoveFiles action; RemoveRegistryValues
/// action).
/// If the run has ProcessComponents, it leaves no client row of the id of a component that leaves (Component table; ProcessComponents
/// action).
pub fn law_removal()
    ensures rows { RunsTakeByRows }
    ensures clients { LastClientsGo }
{}

/// Every client row of a history is the system's or names a recorded product, if each committed run has both ProcessComponents and
/// PublishProduct or neither, and all packages of a product's code have the same rows of Component (ProcessComponents action;
/// PublishProduct action).
pub fn law_clients()
    ensures { ClientsNameProducts }
{}

/// Whatever a run is handed, it comes to exactly one outcome.
pub fn every_run_comes_to_one_outcome()
    ensures { RunsComeToOne }
{}
