//! The tables whose rows don't hang on the number of files.

ghost use Rattle.std.specs.Prelude.{◌≡◌, map};
ghost use Rattle.std.specs.List.{concat};
ghost use Rattle.mi_gen.specs.Tables.{fixed_file};

/// A table with the same rows in each generated package.
#[derive(Clone, Copy)]
pub enum FixedTable {
    Property,
    Feature,
    InstallExecuteSequence,
    Directory,
}

const PROPERTY: [&str; 8] = [
    "Property\tValue\r\n",
    "s0\ts0\r\n",
    "Property\tProperty\r\n",
    "Manufacturer\tAcme\r\n",
    "ProductCode\t{00000000-0000-0000-0000-0000000000FF}\r\n",
    "ProductLanguage\t1033\r\n",
    "ProductName\tSelftest\r\n",
    "ProductVersion\t1.0\r\n",
];

const FEATURE: [&str; 5] = [
    "Feature\tFeature_Parent\tTitle\tDescription\t",
    "Display\tLevel\tDirectory_\tAttributes\r\n",
    "s0\tS0\tS0\tS0\tI4\ti4\tS0\ti4\r\n",
    "Feature\tFeature\r\n",
    "Main\t\t\t\t1\t1\t\t0\r\n",
];

const SEQUENCE: [&str; 24] = [
    "Action\tCondition\tSequence\r\n",
    "s0\tS0\tI4\r\n",
    "InstallExecuteSequence\tAction\r\n",
    "LaunchConditions\t\t100\r\n",
    "CostInitialize\t\t800\r\n",
    "FileCost\t\t900\r\n",
    "CostFinalize\t\t1000\r\n",
    "InstallValidate\t\t1400\r\n",
    "InstallInitialize\t\t1500\r\n",
    "ProcessComponents\t\t1600\r\n",
    "RemoveRegistryValues\t\t2600\r\n",
    "RemoveShortcuts\t\t3200\r\n",
    "RemoveEnvironmentStrings\t\t3300\r\n",
    "RemoveDuplicateFiles\t\t3400\r\n",
    "RemoveFiles\t\t3500\r\n",
    "RemoveFolders\t\t3600\r\n",
    "CreateFolders\t\t3700\r\n",
    "InstallFiles\t\t4000\r\n",
    "DuplicateFiles\t\t4210\r\n",
    "CreateShortcuts\t\t4500\r\n",
    "WriteRegistryValues\t\t5000\r\n",
    "WriteEnvironmentStrings\t\t5200\r\n",
    "PublishProduct\t\t6400\r\n",
    "InstallFinalize\t\t6600\r\n",
];

const DIRECTORY: [&str; 5] = [
    "Directory\tDirectory_Parent\tDefaultDir\r\n",
    "s0\tS0\ts0\r\n",
    "Directory\tDirectory\r\n",
    "TARGETDIR\t\tSourceDir\r\n",
    "APP\tTARGETDIR\tApp\r\n",
];

impl FixedTable {
    /// The path of the table's file in the source.
    pub fn path(self) -> &'static str
        ensures { result.now ≡ (fixed_file self).0 }
    {
        match self {
            FixedTable::Property => "self/Property.idt",
            FixedTable::Feature => "self/Feature.idt",
            FixedTable::InstallExecuteSequence => "self/InstallExecuteSequence.idt",
            FixedTable::Directory => "self/Directory.idt",
        }
    }

    /// The text of the table's file, in pieces.
    pub fn text(self) -> &'static [&'static str]
        ensures { concat (map (λ text. text.now) result.now) ≡ (fixed_file self).1 }
    {
        match self {
            FixedTable::Property => &PROPERTY,
            FixedTable::Feature => &FEATURE,
            FixedTable::InstallExecuteSequence => &SEQUENCE,
            FixedTable::Directory => &DIRECTORY,
        }
    }
}
