//! Whether planned records copy files of the source.

ghost use Rattle.std.specs.Prelude.{◌≡◌, ◌≤◌, false, drop, length, OnOk, IsTrue};
ghost use Rattle.std.specs.List.{All};
ghost use Rattle.mi_plan.specs.Lengths.{is_copy};

use mi_base::NoMemory;
use mi_script::Rec;
use mi_steps::Records;

fn is_copy(rec: &Rec) -> bool
    ensures { result ≡ is_copy rec.now }
{
    match rec {
        Rec::Put(_, _) => false,
        Rec::Drop(_) => false,
        Rec::Copy { .. } => true,
        Rec::Dup { .. } => false,
    }
}

fn copy_nothing(recs: &[Rec]) -> bool
    ensures { IsTrue result → All (λ r. is_copy r ≡ false) recs.now }
{
    for rec in recs {
        if is_copy(rec) {
            return false;
        }
    }
    true
}

/// Refuses, as want of memory, a script with a record behind the first so many that copies a file of the source. The phases but
/// InstallFiles aren't expected to make such a record, which no clause of theirs says.
pub fn check_copies(script: &Records, had: usize) -> Result<(), NoMemory>
    requires { had ≤ length script.now }
    ensures { OnOk result (All (λ r. is_copy r ≡ false) (drop had script.now)) }
{
    if copy_nothing(&script.recs()[had..]) {
        Ok(())
    } else {
        Err(NoMemory)
    }
}
