//! Laws of what is printed of machines.

ghost use Rattle.mi_show.specs.Laws.{PrintsAreExact, SameDiffersNowhere, NothingDiffersInOne};

/// Two machines with one print are one machine, where files of one name, one length and one MD5 have the same bytes.
pub fn prints_are_exact()
    ensures whole { PrintsAreExact }
{}

/// Where nothing differs the machines are one: from a machine to itself nothing differs, and two machines from the one to
/// the other of which nothing differs are one machine, where files of one name, one length and one MD5 have the same bytes.
pub fn nothing_differs_in_one()
    ensures same { SameDiffersNowhere }
    ensures one { NothingDiffersInOne }
{}
