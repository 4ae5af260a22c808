//! What a script carries out.

use mi_base::{Bytes, FileHead, Name, Text};

/// One record of a script: what stands at one name of the volume from then on (this project's own).
#[derive(Drop)]
pub enum Rec {
    /// These bytes.
    Put(Name, Bytes),
    /// Nothing.
    Drop(Name),
    /// A file with this head and the bytes of the source's file of this path, of which it has so many; `file` is
    /// the key of its row (File table).
    Copy {
        name: Name,
        head: FileHead,
        file: Text,
        path: Text,
        length: u64,
    },
    /// A file with this head and the bytes of another file, as that stands then (DuplicateFile table).
    Dup {
        name: Name,
        head: FileHead,
        from: Name,
    },
}

impl Rec {
    ghost use Rattle.std.specs.Prelude.{◌≡◌};
    ghost use Rattle.mi_script.specs.Scripts.{name_at};

    /// The name that the record changes.
    pub fn name(&self) -> &Name
        ensures { result.now ≡ name_at self.now }
    {
        match self {
            Rec::Put(name, _) => name,
            Rec::Drop(name) => name,
            Rec::Copy { name, .. } => name,
            Rec::Dup { name, .. } => name,
        }
    }
}
