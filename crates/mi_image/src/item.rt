//! What stands at the names of an image.

ghost use Rattle.std.specs.Prelude.{◌≡◌, Some};
ghost use Rattle.std.specs.Option.{option_copied};

use mi_base::{Entry, FileHead, Name, Text};

/// Where the bytes of an image's file are, of which there are as many as its head states (this project's own).
#[derive(Drop)]
pub enum Content {
    /// Behind the head, in the record that the scanned volume holds under the file's own name.
    Own,
    /// Behind the head, in the record that the scanned volume holds under this name.
    Held(Name),
    /// In the source's file of this path.
    Copied(Text),
}

/// A file without its bytes, or another entry.
#[derive(Drop)]
pub enum Item {
    Head(FileHead, Content),
    Whole(Entry),
}

impl Item {
    ghost use Rattle.mi_image.specs.Lookups.{whole_of};

    /// The entry that stands whole.
    pub fn whole(&self) -> Option<&Entry>
        ensures { option_copied result ≡ whole_of (Some self.now) }
    {
        match self {
            Item::Whole(entry) => Some(entry),
            Item::Head(_, _) => None,
        }
    }
}
