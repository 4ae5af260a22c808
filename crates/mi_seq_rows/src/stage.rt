//! Where the walk stands.

ghost use Rattle.std.specs.Prelude.{◌≡◌, ◌||◌, ◌++◌, ◌∷◌, [], List, ℕ};
ghost use Rattle.std.specs.Str.{bytes_eq};
ghost use Rattle.mi_model.specs.Sequence.{is_inside};
ghost use Rattle.mi_seq_rows.specs.Stages.{Reaches};

/// Which of the three actions that order a sequence are begun (Suggested InstallExecuteSequence).
#[derive(Clone, Copy)]
pub struct Stage {
    /// CostFinalize.
    pub costed: bool,
    /// InstallInitialize.
    pub initialized: bool,
    /// InstallFinalize.
    pub finalized: bool,
}

impl Stage {
    /// Before the first action: none of the three is begun.
    pub fn start() -> Stage
        ensures { Reaches result [] }
    {
        Stage {
            costed: false,
            initialized: false,
            finalized: false,
        }
    }

    /// Whether it is between InstallInitialize and InstallFinalize (Suggested InstallExecuteSequence).
    pub fn is_inside(self) -> bool
        ensures { (begun : List (List ℕ)) → Reaches self begun → result ≡ is_inside begun }
    {
        self.initialized && !self.finalized
    }

    /// Behind one more action, by its name; but for the three it stays where it is. Takes no memory.
    pub fn behind(self, action: &str) -> Stage
        ensures { (begun : List (List ℕ)) → Reaches self begun → Reaches result (begun ++ action.now ∷ []) }
    {
        let costed = is_begun(self.costed, "CostFinalize", action);
        let initialized = is_begun(self.initialized, "InstallInitialize", action);
        let finalized = is_begun(self.finalized, "InstallFinalize", action);
        Stage {
            costed,
            initialized,
            finalized,
        }
    }
}

/// Whether an action is begun behind one more, if it was or wasn't before.
fn is_begun(before: bool, name: &str, action: &str) -> bool
    ensures { result ≡ (before || bytes_eq name.now action.now) }
{
    before || name == action
}
