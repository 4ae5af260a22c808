//! What becomes of a component.

ghost use Rattle.std.specs.Prelude.{◌≡◌};
ghost use Rattle.mi_model.specs.Components.{is_coming, is_leaving, is_kept};
ghost use Rattle.mi_components.specs.Actions.{is_local, is_absent, action_kept, as_action};

use crate::holders::Holders;
use mi_features::has_attribute;
use mi_schema::ComponentRow;

/// What is done to a component (Component Table).
#[derive(Clone, Copy)]
pub enum Action {
    /// It is installed, or repaired.
    MakeLocal,
    /// It is removed.
    MakeAbsent,
}

/// What is done to a component, and what of it was there before the run.
#[derive(Clone, Copy)]
pub struct ComponentChoice {
    /// What is done to it.
    pub action: Option<Action>,
    /// Whether it was there before the run.
    pub present: bool,
    /// Whether another product or the system is its client.
    pub other_client: bool,
}

/// Whether a component is to be installed or repaired (Component Table).
pub fn is_local(action: Option<Action>) -> bool
    ensures { result ≡ is_local action }
{
    match action {
        Some(Action::MakeLocal) => true,
        Some(Action::MakeAbsent) => false,
        None => false,
    }
}

/// Whether a component is to be removed (Component Table).
pub fn is_absent(action: Option<Action>) -> bool
    ensures { result ≡ is_absent action }
{
    match action {
        Some(Action::MakeLocal) => false,
        Some(Action::MakeAbsent) => true,
        None => false,
    }
}

/// What is done to a component: `has_id` says that it has a code, `holds` that its condition does, `present` that it is
/// there, and `holders` what its features say of it.
pub fn action_of(has_id: bool, holds: bool, present: bool, holders: Holders) -> Option<Action>
    ensures { result ≡ action_kept has_id holds present holders }
{
    let enabled = holds || (has_id && present);
    let asked_for = holders.local || (has_id && holders.reinstalled);
    if enabled && asked_for {
        Some(Action::MakeLocal)
    } else if has_id && present && !holders.wanted {
        Some(Action::MakeAbsent)
    } else {
        None
    }
}

impl ComponentChoice {
    /// Whether the component of this row is installed. `key_path_there` says that its key path is there, which is asked where
    /// attribute 128 is set (Component Table, Attributes).
    pub fn is_coming(&self, row: &ComponentRow, key_path_there: bool) -> bool
        ensures { result ≡ is_coming row.now (as_action self.now.action) key_path_there }
    {
        is_local(self.action) && !(has_attribute(128, row.attributes) && key_path_there)
    }

    /// Whether what the component of this row brought is taken away. `other_count` says that by its count others hold its file
    /// (Component Table, Attributes).
    pub fn is_leaving(&self, row: &ComponentRow, other_count: bool) -> bool
        ensures { result ≡ is_leaving row.now (as_action self.now.action) self.now.other_client other_count }
    {
        is_absent(self.action)
            && !has_attribute(16, row.attributes)
            && !self.other_client
            && !other_count
    }

    /// Whether what the component brought stays. `leaving` says that it is taken away.
    pub fn is_kept(&self, leaving: bool) -> bool
        ensures { result ≡ is_kept (as_action self.now.action) self.now.present leaving }
    {
        is_local(self.action) || (self.present && !leaving)
    }
}
