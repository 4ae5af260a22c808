//! What is said of a feature by itself, and of it with its ancestors.

ghost use Rattle.std.specs.Prelude.{◌≡◌, ◌&&◌, not, true, false};
ghost use Rattle.mi_rows.specs.Values.{lacks};
ghost use Rattle.mi_model.specs.Conditions.{has};
ghost use Rattle.mi_wishes.specs.Lines.{asked, followed, by_lists, line_below};

use crate::choice::Request;

/// What is said of a feature by itself.
#[derive(Clone, Copy)]
pub struct Own {
    /// REMOVE names it.
    pub removed: bool,
    /// ADDLOCAL names it or a feature below it, and it isn't disabled.
    pub added_local: bool,
    /// ADDDEFAULT does.
    pub added_default: bool,
    /// REINSTALL names it, and it is recorded.
    pub reinstalled: bool,
    /// Its level is within INSTALLLEVEL.
    pub within: bool,
    /// It follows its parent (Feature Table, Attributes).
    pub follows: bool,
}

/// What is said of a feature with its ancestors.
#[derive(Clone, Copy)]
pub struct Line {
    /// REMOVE names it or an ancestor.
    pub removed: bool,
    /// It and all its ancestors are within INSTALLLEVEL.
    pub within: bool,
    /// What is asked of it.
    pub request: Option<Request>,
}

/// Whether an attribute is set.
pub fn has_attribute(bit: u32, attributes: i32) -> bool
    ensures { result ≡ has bit attributes }
{
    attributes.cast_unsigned() & bit != 0
}

impl Own {
    /// What the lists ask of it, each overriding those before it.
    fn by_lists(self, removed: bool) -> Option<Request>
        ensures { result ≡ by_lists self removed }
    {
        if self.added_default {
            Some(Request::Local)
        } else if removed {
            Some(Request::Absent)
        } else if self.added_local {
            Some(Request::Local)
        } else if self.reinstalled {
            Some(Request::Reinstall)
        } else {
            None
        }
    }

    /// What is asked of it but for its parent.
    fn asked(self, by_level: bool, removed: bool) -> Option<Request>
        ensures { result ≡ asked self by_level removed }
    {
        if by_level {
            Some(Request::Local)
        } else {
            self.by_lists(removed)
        }
    }
}

/// What the parent is asked where that is to be local or absent.
fn followed(own: Option<Request>, above: Option<Request>) -> Option<Request>
    ensures { result ≡ followed own above }
{
    match above {
        Some(Request::Local) => above,
        Some(Request::Absent) => above,
        Some(Request::Reinstall) => own,
        None => own,
    }
}

impl Line {
    /// The line above a root feature, which has no features.
    pub fn none() -> Line
        ensures { result ≡ record { removed = false; within = true; request = None } }
    {
        Line {
            removed: false,
            within: true,
            request: None,
        }
    }

    /// The line of a feature below this line. `first` says that the product isn't recorded and no property names features.
    pub fn below(self, own: Own, first: bool) -> Line
        ensures { result ≡ line_below first own self }
    {
        let removed = own.removed || self.removed;
        let within = own.within && self.within;
        let asked = own.asked(first && within, removed);
        let request = if own.follows {
            followed(asked, self.request)
        } else {
            asked
        };
        Line {
            removed,
            within,
            request,
        }
    }
}
