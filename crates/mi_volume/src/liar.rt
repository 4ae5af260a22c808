//! A volume that lies: what it answers comes from lists, whatever it is asked.

ghost use Rattle.std.specs.Prelude.{◌≡◌, ◌≤◌, true, length, IfOk, IfSome};
ghost use Rattle.std.specs.Option.{option_copied};
ghost use Rattle.mi_volume.specs.Maps.{IsAbove};

use crate::volume::{Failed, PutFault, VolFault, Volume};
use mi_text::{Bytes, Name, NoMemory};
use std::alloc::Global;

/// A volume that answers sizes, bytes and names from lists, each used in turn, takes every write for done, and never fails.
/// It tells nothing of what it holds, so all that is promised over it is what holds over every device: that calls return
/// (this project's own).
#[derive(Drop)]
pub struct Liar {
    // The next answer of each is its last item.
    sizes: Vec<u64>,
    reads: Vec<Bytes>,
    names: Vec<Name>,
}

// Whether a name is above another, or above none.
fn is_above(after: Option<&Name>, name: &Name) -> bool
    ensures { result ≡ true → IsAbove (option_copied after.entry) name.now }
{
    match after {
        None => true,
        Some(after) => after < name,
    }
}

impl Liar {
    /// A volume that answers so. Each list ends with the size 0, no bytes and no name. It takes no memory.
    pub fn new(mut sizes: Vec<u64>, mut reads: Vec<Bytes>, mut names: Vec<Name>) -> Liar {
        sizes.reverse();
        reads.reverse();
        names.reverse();
        Liar {
            sizes,
            reads,
            names,
        }
    }

    // The next name of the list that is above another; those before it are skipped.
    fn name_above(&mut self, after: Option<&Name>) -> Option<Name>
        ensures { IfSome result (IsAbove (option_copied after.entry)) }
    {
        while let Some(name) = self.names.pop() {
            if is_above(after, &name) {
                return Some(name);
            }
        }
        None
    }
}

// The first bytes of a piece, at most so many.
fn cut(alloc: Global, piece: &Bytes, want: usize) -> Result<Bytes, NoMemory>
    ensures { IfOk result (λ bytes. length bytes ≤ want) }
{
    let piece = piece.as_slice();
    let front = piece.get(..want).unwrap_or(piece);
    Bytes::copy_of(alloc, front)
}

impl Volume for Liar {
    ghost use Rattle.mi_volume.specs.Untold.{untold};

    ghost told = { ⊥ };

    ghost state = { λ v. untold 0 };

    ghost counts_now = { λ told v t d le image. absurd told };

    fn next(&mut self, _alloc: Global, after: Option<&Name>) -> Result<Option<Name>, VolFault> {
        Ok(self.name_above(after))
    }

    fn size(&mut self, _name: &Name) -> Result<Option<u64>, Failed> {
        Ok(Some(self.sizes.pop().unwrap_or(0)))
    }

    fn read(
        &mut self,
        alloc: Global,
        _name: &Name,
        _at: u64,
        want: usize,
    ) -> Result<Bytes, VolFault> {
        match self.reads.pop() {
            Some(piece) => Ok(cut(alloc, &piece, want)?),
            None => Ok(Bytes::new(alloc)),
        }
    }

    fn put(&mut self, _alloc: Global, _name: &Name, _bytes: &[u8]) -> Result<(), PutFault> {
        Ok(())
    }

    fn append(&mut self, _alloc: Global, _name: &Name, _bytes: &[u8]) -> Result<(), PutFault> {
        Ok(())
    }

    fn mark(&mut self, _name: &Name, _byte: u8) -> Result<(), Failed> {
        Ok(())
    }

    fn remove(&mut self, _name: &Name) -> Result<(), Failed> {
        Ok(())
    }

    fn sync(&mut self) -> Result<(), Failed> {
        Ok(())
    }

    fn free(&mut self) -> Result<Option<u64>, Failed> {
        Ok(None)
    }

    fn faults(&self) -> u64 {
        0
    }
}
