//! The phases of files, folders and copies of files as plan calls (File, RemoveFile, DuplicateFile and CreateFolder tables;
//! RemoveFiles, RemoveDuplicateFiles, CreateFolders, RemoveFolders and DuplicateFiles actions).
#![tactic(auto)]

mod duplicate;
mod folders;
mod guards;
mod matching;
mod names;
mod order;
mod parents;
mod paths;
mod prune;
mod remove;
mod rows;
mod taking;
mod uncopy;

pub use duplicate::plan_duplicate;
pub use folders::{plan_create_folders, plan_remove_folders};
pub use parents::make_folders;
pub use paths::{component_row, file_in, row_path};
pub use prune::prune_folders;
pub use remove::plan_remove_files;
pub use uncopy::plan_remove_duplicate;
