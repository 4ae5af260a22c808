//! What a run is asked for.

use crate::rest::Assignments;

/// What a run is asked for (Windows Installer command-line options; the last four are this project's own). It lends
/// what it holds of the words.
#[derive(Clone, Copy)]
pub enum Command<'a> {
    /// The package of a folder.
    Package(PackageWords<'a>),
    /// The package that is made for tests.
    Selftest(TestWords<'a>),
    /// The list of the clients.
    Clients,
    /// The list of the products.
    Products,
    /// The former machine, and nothing more.
    Recover,
}

/// A package, and the properties that it is run with.
#[derive(Clone, Copy)]
pub struct PackageWords<'a> {
    /// Whether its product has to be recorded.
    pub recorded: bool,
    /// The package's folder in the source, which isn't empty.
    pub folder: &'a str,
    /// The properties of the words; behind them stand those that the command sets.
    pub words: Assignments<'a>,
    pub sets: Sets<'a>,
}

/// The package that is made for tests.
#[derive(Clone, Copy)]
pub struct TestWords<'a> {
    /// How many files it has: 1 to 5,000.
    pub files: u32,
    pub words: Assignments<'a>,
}

/// The properties that a command sets by itself.
#[derive(Clone, Copy)]
pub enum Sets<'a> {
    Nothing,
    /// REMOVE is ALL (REMOVE Property).
    Removal,
    /// REINSTALL is ALL, and REINSTALLMODE these letters in lower case, where there are any (REINSTALL Property;
    /// REINSTALLMODE Property).
    Repair(&'a str),
}
