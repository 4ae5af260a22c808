//! Laws of what is printed of entries.

ghost use Rattle.mi_print.specs.Laws.{LinesAreExact, TreesAreExact};

/// What is printed stands for one entry alone: two entries of one kind with one line are one entry, and two lists of files
/// with one tree are one list, where files of one length and one MD5 have the same bytes.
pub fn lines_are_exact()
    ensures lines { LinesAreExact }
    ensures trees { TreesAreExact }
{}
