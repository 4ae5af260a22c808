//! What properties, conditions and the product's record say of features.

ghost use Rattle.std.specs.Prelude.{◌≡◌, ◌&&◌, ◌||◌, Option, List, ℕ, pos, unwrap_or, int_lt, int_le};
ghost use Rattle.std.specs.BTreeSet.{contains};
ghost use Rattle.mi_text.specs.Maps.{name_cmp};
ghost use Rattle.mi_wishes.specs.Levels.{level_at};

use crate::levels::Levels;
use crate::list::Lists;
use mi_base::Text;
use mi_schema::FeatureRow;
use std::collections::BTreeSet;

/// What properties, conditions and the product's record say of features.
#[derive(Drop)]
pub struct Wishes<'a> {
    pub levels: Levels<'a>,
    pub lists: Lists,
    /// The features of the product's record.
    pub recorded: BTreeSet<Text>,
    /// Whether the product isn't recorded.
    pub is_new: bool,
    pub install_level: u32,
}

impl Wishes<'_> {
    /// The level of a feature: the greatest of its conditions that hold, else its own.
    pub fn level_of(&self, row: &FeatureRow) -> i32
        ensures { result ≡ unwrap_or (level_at self.now.levels row.now.feature) row.now.level }
    {
        match self.levels.get(row.feature.as_str()) {
            Some(level) => *level,
            None => row.level,
        }
    }

    /// Whether a feature is in the product's record.
    pub fn is_recorded(&self, row: &FeatureRow) -> bool
        ensures { result ≡ contains name_cmp self.now.recorded row.now.feature }
    {
        self.recorded.contains(&row.feature)
    }

    /// Whether a feature of this level is installed where no property names features.
    pub fn is_within(&self, level: i32) -> bool
        ensures { result ≡ (int_lt (pos 0) level && int_le level (pos self.now.install_level)) }
    {
        0 < level && i64::from(level) <= i64::from(self.install_level)
    }
}
