//! Laws of codes and paths: what is written is read as the same value.

ghost use Rattle.std.specs.Prelude.{◌≡◌, ◌↔◌, Some, Ok, false, IfOk, IsTrue};
ghost use Rattle.mi_text.specs.Guid.{guid_of, guid_text};
ghost use Rattle.mi_text.specs.Path.{folder_of, below_of, file_of, parent_of, is_folder_path, is_file_path, is_path};

/// A code of any number is read as that number where it is printed.
pub fn printed_code_is_read(number: u128)
    ensures { guid_of (guid_text number) ≡ Some number }
{}

/// A folder's path is the text that is read as itself, what a text names is such a path, and no path is a folder's and a
/// file's.
pub fn folder_is_read_again(text: &str)
    ensures folder { IsTrue (is_folder_path text.now) ↔ (folder_of text.now ≡ Ok text.now) }
    ensures canonical { IfOk (folder_of text.now) (λ p. folder_of p ≡ Ok p) }
    ensures apart { IsTrue (is_folder_path text.now) → is_file_path text.now ≡ false }
{}

/// The parent of what is made in a folder is that folder.
pub fn parent_is_the_folder(folder: &str, part: &str)
    requires { IsTrue (is_folder_path folder.now) }
    ensures below { IfOk (below_of folder.now part.now) (λ p. (parent_of p ≡ folder.now) × IsTrue (is_folder_path p)) }
    ensures file { IfOk (file_of folder.now part.now) (λ p. (parent_of p ≡ folder.now) × IsTrue (is_file_path p)) }
{}

/// The parent of a path is a folder's path.
pub fn parent_is_a_folder(path: &str)
    requires { IsTrue (is_path path.now) }
    ensures { IsTrue (is_folder_path (parent_of path.now)) }
{}
