//! Answers of the top call and their causes, as plain data. All are this project's own.

use mi_text::{Guid, IdtFault, Name, Settled, Text};

/// What a run answers.
#[derive(Drop)]
pub enum Kind {
    /// The machine is the one that the tables define, in every crash image.
    Done,
    /// The lines of a listing were written.
    Listed,
    /// The rollback area was settled, and nothing more was asked for.
    Recovered(Settled),
    /// The machine is the former one, in every crash image.
    Refused(Cause),
    /// Neither the former machine nor the one of the tables is there for good.
    Suspended(Pause),
    /// Memory ran out; every crash image stands for the former machine.
    NoMemory,
}

/// Where a run was suspended.
#[derive(Clone, Copy)]
pub enum Place {
    /// While the old bytes were put back.
    InRollback,
    /// While the rollback area was closed or opened anew.
    InCommit,
}

/// Why a run was suspended.
#[derive(Drop)]
pub struct Pause {
    pub place: Place,
    /// The refusal that the run met; None for `InCommit`.
    pub why: Option<Cause>,
    /// The volume's count of faults when the run began to write, or when the commit write began.
    pub begun: u64,
    /// The count when the rollback began, or when the rollback area was opened anew.
    pub again: u64,
}

/// Why a run was refused.
#[derive(Drop)]
pub enum Cause {
    /// The word of this place, from 0, is the first that is refused; the number of words where one is missing.
    BadWords(u64),
    /// The volume's count of faults rose before the commit succeeded.
    VolumeFault,
    /// The first entry of the rollback area that is read and is absent or not spelled.
    BadRollback(Name),
    /// The first noted name whose former bytes don't fit while settling.
    RecoveryFull(Name),
    /// The first held name that isn't spelled.
    BadImage(Name),
    /// The source's count of faults rose.
    SourceFault,
    /// The package or its sequence has this fault.
    Table(Fault),
    /// A removal or a repair names a product that isn't recorded.
    UnknownProduct(Guid),
    /// The first LaunchCondition row that is false, with its formatted Description (LaunchConditions action).
    Launch(Text),
    /// The walk ends at this action of type 19, with its formatted Target (Custom Action Type 19).
    ErrorAction(Text, Text),
    /// The bytes that the run needs, and the bytes that are free, which are fewer.
    Full(u64, u64),
}

/// A fault of a package (Database Tables). Rows and columns count from 1, rows in file order; sizes are bytes.
#[derive(Drop)]
pub enum Fault {
    /// A table that each package has is missing.
    MissingTable(Text),
    /// The text of this table can't be read.
    Idt(Text, IdtFault),
    /// The known columns of this table differ in name, order, class or key.
    Columns(Text),
    /// This table isn't carried out and holds rows.
    Unsupported(Text),
    /// The value of this table, row and column isn't one of its kind.
    Value(Text, u32, u32),
    /// The condition of this table and row can't be read from this place on.
    Condition(Text, u32, u64),
    /// A property that each package has is missing.
    MissingProperty(Text),
    /// The value of this table, row and column is the key of no row.
    Reference(Text, u32, u32),
    /// The parents of this row of this table don't end.
    Cycle(Text, u32),
    /// This file is stored compressed.
    Compressed(Text),
    /// A list of features has this item, which is no feature (ADDLOCAL property).
    UnknownFeature(Text),
    /// The property ADDSOURCE isn't empty: nothing is run from its source (ADDSOURCE property).
    AddSource,
    /// The value of this property isn't of its form (INSTALLLEVEL and REINSTALLMODE properties).
    BadProperty(Text),
    /// The path of this table and row isn't a path, or is past the limits.
    BadPath(Text, u32),
    /// The formatted text of this table and row is nested too deep (Formatted data type).
    TooDeep(Text, u32),
    /// The key or the name of this table and row isn't one, or is past the limits (Registry table).
    BadKey(Text, u32),
    /// The value of this table and row isn't of its form, or is past the limits (Registry table).
    BadValue(Text, u32),
    /// The Name or the Value of this row isn't of its form (Environment table).
    BadEnvironment(u32),
    /// These two files have one target, the second behind the first (File table).
    SameTarget(Text, Text),
    /// The source of this file isn't there (File table).
    Missing(Text),
    /// The source of this file has not the size that its row states: the size stated, and the size found.
    SizeDiffers(Text, u64, u64),
    /// This action is no standard action and no custom action (Sequence tables).
    UnknownAction(Text),
    /// This custom action would run code (CustomAction table).
    Executable(Text),
    /// This action stands at a wrong place of its sequence.
    SequenceOrder(Text),
    /// The sequence ends behind InstallInitialize without InstallFinalize.
    NoFinalize,
    /// This action of type 51 sets what is no property's name (Custom Action Type 51).
    BadName(Text),
}
