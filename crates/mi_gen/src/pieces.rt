//! Texts one behind another, and the ends of lines.

ghost use Rattle.std.specs.Prelude.{◌≡◌, ◌++◌, [], ◌∷◌, map, OnOk};
ghost use Rattle.std.specs.List.{concat};

use mi_text::NoMemory;

/// Adds the end of a line.
pub fn push_end(out: &mut Vec<u8>) -> Result<(), NoMemory>
    ensures { OnOk result (out.new.items ≡ out.old.items ++ 13 ∷ 10 ∷ []) }
{
    out.extend_from_slice(b"\r\n")?;
    Ok(())
}

/// Adds texts one behind another.
pub fn push_all(out: &mut Vec<u8>, texts: &[&str]) -> Result<(), NoMemory>
    ensures { OnOk result (out.new.items ≡ out.old.items ++ concat (map (λ text. text.now) texts.now)) }
{
    for text in texts {
        out.extend_from_slice(text.as_bytes())?;
    }
    Ok(())
}
