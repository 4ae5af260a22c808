//! The tables with rows for the files.

ghost use Rattle.std.specs.Prelude.{◌≡◌, ◌<◌, ◌-◌, ◌^◌, ◌++◌, [], ◌∷◌, map, OnOk, List};
ghost use Rattle.std.specs.List.{concat};
ghost use Rattle.mi_idt.specs.Cells.{Cell};
ghost use Rattle.mi_idt.specs.Written.{written_row, with_ends};
ghost use Rattle.mi_gen.specs.Tables.{numbered_file, has_row, row};

use crate::rows::{push_component, push_feature_component, push_file, push_registry};
use mi_text::NoMemory;
use std::alloc::Global;

/// A table with rows by the numbers of files.
#[derive(Clone, Copy)]
pub enum NumberedTable {
    Component,
    FeatureComponents,
    File,
    Registry,
}

const COMPONENT: [&str; 4] = [
    "Component\tComponentId\tDirectory_\t",
    "Attributes\tCondition\tKeyPath\r\n",
    "s0\tS0\ts0\ti4\tS0\tS0\r\n",
    "Component\tComponent\r\n",
];

const FEATURE_COMPONENTS: [&str; 3] = [
    "Feature_\tComponent_\r\n",
    "s0\ts0\r\n",
    "FeatureComponents\tFeature_\tComponent_\r\n",
];

const FILE: [&str; 4] = [
    "File\tComponent_\tFileName\tFileSize\t",
    "Version\tLanguage\tAttributes\tSequence\r\n",
    "s0\ts0\ts0\ti4\tS0\tS0\tI4\ti4\r\n",
    "File\tFile\r\n",
];

const REGISTRY: [&str; 3] = [
    "Registry\tRoot\tKey\tName\tValue\tComponent_\r\n",
    "s0\ti4\ts0\tS0\tS0\ts0\r\n",
    "Registry\tRegistry\r\n",
];

impl NumberedTable {
    /// The path of the table's file in the source.
    pub fn path(self) -> &'static str
        ensures { result.now ≡ (numbered_file self []).0 }
    {
        match self {
            NumberedTable::Component => "self/Component.idt",
            NumberedTable::FeatureComponents => "self/FeatureComponents.idt",
            NumberedTable::File => "self/File.idt",
            NumberedTable::Registry => "self/Registry.idt",
        }
    }

    /// The text before the rows, in pieces.
    pub fn head(self) -> &'static [&'static str]
        ensures { (rows : List (List Cell)) → concat (map (λ text. text.now) result.now) ++ with_ends (map written_row rows) ≡ (numbered_file self rows).1 }
    {
        match self {
            NumberedTable::Component => &COMPONENT,
            NumberedTable::FeatureComponents => &FEATURE_COMPONENTS,
            NumberedTable::File => &FILE,
            NumberedTable::Registry => &REGISTRY,
        }
    }

    /// Whether the file of this number brings a row.
    pub fn has_row(self, file: u32) -> bool
        ensures { result ≡ has_row self file }
    {
        match self {
            NumberedTable::Component | NumberedTable::FeatureComponents => file % 10 == 0,
            NumberedTable::File | NumberedTable::Registry => true,
        }
    }

    /// Adds the row of the file of this number, with its end.
    pub fn push_row(self, alloc: Global, out: &mut Vec<u8>, file: u32) -> Result<(), NoMemory>
        requires { file < 2 ^ 32 - 1 }
        ensures { OnOk result (out.new.items ≡ out.old.items ++ with_ends (written_row (row self file) ∷ [])) }
    {
        match self {
            NumberedTable::Component => push_component(alloc, out, file),
            NumberedTable::FeatureComponents => push_feature_component(alloc, out, file),
            NumberedTable::File => push_file(alloc, out, file),
            NumberedTable::Registry => push_registry(alloc, out, file),
        }
    }
}
