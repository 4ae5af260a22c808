//! Files as a tree.

ghost use Rattle.std.specs.Prelude.{◌≡◌, ◌<◌, ◌≤◌, ◌+◌, ◌^◌, if◌then◌else◌, ◌++◌, ◌∷◌, [], OnOk, length, take, drop, count_by, codes};
ghost use Rattle.mi_text.specs.Path.{up_to_last, is_backslash};
ghost use Rattle.mi_print.specs.Trees.{common, shared, depth, bars, branches, path_lines};

use crate::texts::push_tree_byte;
use mi_base::NoMemory;

// How many bytes both texts begin with.
fn common_len(former: &[u8], path: &[u8]) -> usize
    ensures common { take result path.now ≡ common former.now path.now }
    ensures within { result ≤ length path.now }
{
    let size = former.len().min(path.len());
    for i in 0..size {
        if former[i] != path[i] {
            return i;
        }
    }
    size
}

// Where a folder ends behind this byte at this place, if it ended there before.
fn end_behind(byte: u8, at: usize, end: usize) -> usize
    requires { at < 2 ^ 63 }
    ensures { result ≡ (if is_backslash byte then at + 1 else end) }
{
    if byte == b'\\' { at + 1 } else { end }
}

// How many bytes stand up to the last backslash, and with it.
fn folder_len(bytes: &[u8]) -> usize
    ensures folder { take result bytes.now ≡ up_to_last bytes.now }
    ensures within { result ≤ length bytes.now }
{
    let mut end = 0;
    for i in 0..bytes.len() {
        end = end_behind(bytes[i], i, end);
    }
    end
}

fn push_bars(out: &mut Vec<u8>, count: usize) -> Result<(), NoMemory>
    ensures { OnOk result (out.new.items ≡ out.old.items ++ bars count) }
{
    for _bar in 0..count {
        out.extend_from_slice(b"| ")?;
    }
    Ok(())
}

// Adds what is left of a path, whose folders so far are so many.
#[tactic(auto, unfolding(crate::specs::Trees::branches))]
fn push_branches(out: &mut Vec<u8>, folders: usize, path: &[u8]) -> Result<(), NoMemory>
    requires { folders + length path.now ≤ usize.MAX }
    ensures { OnOk result (out.new.items ≡ out.old.items ++ branches folders path.now) }
{
    let mut folders = folders;
    for byte in path {
        if *byte == b'\\' {
            folders += 1;
            out.extend_from_slice(b"\\\n")?;
            push_bars(out, folders)?;
        } else {
            push_tree_byte(out, *byte)?;
        }
    }
    Ok(())
}

fn depth(path: &[u8]) -> usize
    ensures depth { result ≡ depth path.now }
    ensures within { result ≤ length path.now }
{
    path.iter().filter(|byte| **byte == b'\\').count()
}

/// Adds the lines of a path in a tree of files, behind those of the path before: a line for each folder that isn't there yet,
/// and the file's own, without a line feed.
#[tactic(auto, unfolding(crate::specs::Trees::shared, crate::specs::Trees::path_lines))]
pub fn push_path(out: &mut Vec<u8>, former: &[u8], path: &[u8]) -> Result<(), NoMemory>
    ensures { OnOk result (out.new.items ≡ out.old.items ++ path_lines former.now path.now) }
{
    let common = &path[..common_len(former, path)];
    let (folder, rest) = path.split_at(folder_len(common));
    let folders = depth(folder);
    push_bars(out, folders)?;
    push_branches(out, folders, rest)
}
