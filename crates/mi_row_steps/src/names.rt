//! Names that go.

ghost use Rattle.std.specs.Prelude.{◌≡◌, ◌∷◌, [], List, ℕ, IfOk, OnOk};
ghost use Rattle.mi_text.specs.Fold.{IsNameLength};
ghost use Rattle.mi_text.specs.Maps.{Map};
ghost use Rattle.mi_steps.specs.Follows.{drop_touch};
ghost use Rattle.mi_steps.specs.Makes.{Makes};
ghost use Rattle.mi_records.specs.Keeps.{Keeps};

use mi_base::{Name, NameError, NoMemory};
use mi_steps::Plan;
use std::alloc::Global;

// The name of a text of 1 to 1,024 bytes.
fn name_of_text(alloc: Global, text: &str) -> Result<Name, NoMemory>
    requires { IsNameLength text.now }
    ensures { IfOk result (λ name. name ≡ text.now) }
{
    match Name::of(alloc, text) {
        Ok(name) => Ok(name),
        Err(NameError::NoMemory) => Err(NoMemory),
        Err(NameError::Length) => unreachable!(),
    }
}

/// Takes away what stands at a name.
pub fn drop_at(alloc: Global, plan: &mut Plan, at: &str) -> Result<(), NoMemory>
    requires { IsNameLength at.now }
    ensures makes { (held files : Map (List ℕ)) → OnOk result (Makes held files plan.old plan.new (drop_touch at.now ∷ [])) }
    ensures keeps { Keeps plan.old plan.new }
{
    match name_of_text(alloc, at) {
        Ok(name) => plan.drop_name(alloc, &name),
        Err(_) => Err(NoMemory),
    }
}
