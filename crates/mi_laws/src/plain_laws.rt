//! How often a row changes a name, and the product code of a package.

ghost use Rattle.mi_laws.specs.PlainLaws.{LawfulPackagesHaveCodes, RowsArePlain, WalksArePlain};

/// No row of a phase changes a name twice, each over what the rows before it leave, where the package's product code isn't all zeros.
pub fn rows_are_plain()
    ensures { RowsArePlain }
{}

/// No row of a walk's segments changes a name twice, each over what the rows before it leave, where the package's product code isn't all
/// zeros.
pub fn walks_are_plain()
    ensures { WalksArePlain }
{}

/// The product code of a lawful package isn't all zeros (ProductCode property).
pub fn lawful_packages_have_codes()
    ensures { LawfulPackagesHaveCodes }
{}
