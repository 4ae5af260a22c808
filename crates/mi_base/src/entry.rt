//! Entries of the machine. Their names and records on the volume are this project's own.

use crate::collections::{Languages, Texts};
use mi_text::{Bytes, Guid, PathText, Text, Version};

/// An entry of the machine.
#[derive(Drop)]
pub enum Entry {
    /// A file with its bytes (File table).
    File(FileEntry),
    /// A folder, which isn't the drive's own (Directory table).
    Folder(PathText),
    /// A registry value (Registry table).
    Value(ValueKey, RegValue),
    /// A registry key: its root, 0 HKCR, 1 HKCU, 2 HKLM, 3 HKU, and the key as it is shown (Registry table).
    Key(u8, Text),
    /// A shortcut (Shortcut table).
    Shortcut(Shortcut),
    /// An environment variable (Environment table).
    Variable(Variable),
    /// That a product uses a component (Component table).
    Client(Client),
    /// An installed product.
    Product(Product),
    /// A property of the system, and its value (Property Reference).
    System(Text, Text),
}

/// A file: its path as it is shown, its version, its languages, strictly rising, the moments in
/// seconds at which it was created and last modified, its attributes (1 read-only, 2 hidden, 4
/// system), and its bytes.
#[derive(Drop)]
pub struct FileEntry {
    pub shown: PathText,
    pub version: Option<Version>,
    pub languages: Languages,
    pub created: u64,
    pub modified: u64,
    pub attributes: u32,
    pub bytes: Bytes,
}

/// What is known of a file beside its bytes, and the number of its bytes.
#[derive(Drop)]
pub struct FileHead {
    pub shown: PathText,
    pub version: Option<Version>,
    pub languages: Languages,
    pub created: u64,
    pub modified: u64,
    pub attributes: u32,
    pub length: u64,
}

/// What a registry value holds (Registry table, column Value).
#[derive(Drop)]
pub enum RegValue {
    Text(Text),
    /// A text with environment variables to be expanded by its reader.
    Expand(Text),
    Int(u32),
    Binary(Bytes),
    List(Texts),
}

/// Where a registry value stands: the digit of its root, its key, which is folded, and its name as
/// it is shown.
#[derive(Drop)]
pub struct ValueKey {
    pub root: u8,
    pub key: Text,
    pub shown: Text,
}

/// A shortcut (Shortcut table): its path as it is shown, and what it starts.
#[derive(Drop)]
pub struct Shortcut {
    pub shown: PathText,
    pub target: Text,
    pub arguments: Text,
    pub description: Text,
    pub hotkey: u16,
    pub icon: Text,
    pub icon_index: i16,
    pub show: u16,
    /// The working folder.
    pub folder: Text,
}

/// An environment variable (Environment table): whether it is the system's or the user's, its name
/// as it is shown, and its value.
#[derive(Drop)]
pub struct Variable {
    pub system: bool,
    pub name: Text,
    pub value: Text,
}

/// That a product uses a component. The product of all zeros stands for the system.
#[derive(Drop)]
pub struct Client {
    pub component: Guid,
    pub product: Guid,
    pub key_path: Text,
}

/// An installed product: its code, name, version, language and local features, strictly rising by
/// bytes.
#[derive(Drop)]
pub struct Product {
    pub code: Guid,
    pub name: Text,
    pub version: Version,
    pub language: u16,
    pub features: Texts,
}
