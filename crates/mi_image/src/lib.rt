//! The image of a machine: what a scan of the volume reads, without the bytes of files.
#![tactic(auto)]

mod buffer;
mod copies;
mod effects;
mod fault;
mod former;
mod fronts;
mod image;
mod item;
mod kinds;
mod lists;
mod lookups;
mod names;
mod overlay;
mod pick;
mod places;
mod reading;
mod scan;
mod stated;
mod system;
mod under;
mod window;

pub use fault::ImageError;
pub use image::Image;
pub use item::{Content, Item};
pub use overlay::Overlay;
