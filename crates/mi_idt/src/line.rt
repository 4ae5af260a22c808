//! Parts of a written line.

ghost use Rattle.std.specs.Prelude.{◌≡◌, ◌++◌, OnOk};
ghost use Rattle.mi_idt.specs.Texts.{separator};

use mi_text::NoMemory;

/// Adds the tab before the part of a place, from 0; the first has none.
pub fn push_tab(out: &mut Vec<u8>, place: usize) -> Result<(), NoMemory>
    ensures { OnOk result (out.new.items ≡ out.old.items ++ separator place) }
{
    if place > 0 {
        out.push(b'\t')?;
    }
    Ok(())
}

/// Adds the part of a place.
pub fn push_part(out: &mut Vec<u8>, place: usize, part: &[u8]) -> Result<(), NoMemory>
    ensures { OnOk result (out.new.items ≡ out.old.items ++ (separator place ++ part.now)) }
{
    push_tab(out, place)?;
    out.extend_from_slice(part)?;
    Ok(())
}
