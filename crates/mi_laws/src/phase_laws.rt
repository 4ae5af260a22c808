//! What a phase takes away.

ghost use Rattle.mi_laws.specs.ClientLaws.{ClientsGoByAbsence};
ghost use Rattle.mi_laws.specs.FileLaws.{FilesGoByRows};
ghost use Rattle.mi_laws.specs.ValueLaws.{ValuesGoByRows};

/// A value of the registry that goes is named by a row of Registry of a component that leaves, and not guarded, or by a row of
/// RemoveRegistry of a component that is made local, or it is the count of a component that leaves, and not guarded; no other
/// phase takes a value away (RemoveRegistryValues and ProcessComponents actions).
pub fn values_go_by_rows()
    ensures { ValuesGoByRows }
{}

/// A client row that goes is the one of this product for the id of a component that is made Absent; no other phase changes the rows of
/// clients, and besides them ProcessComponents changes only counts and the keys down to them (ProcessComponents action).
pub fn clients_go_by_absence()
    ensures { ClientsGoByAbsence }
{}

/// A file that goes is named by a row of File or DuplicateFile of a component that leaves, and not guarded, or by a row of RemoveFile in
/// force; no other phase takes a file away (RemoveFiles and RemoveDuplicateFiles actions).
pub fn files_go_by_rows()
    ensures { FilesGoByRows }
{}
