//! What becomes of components.

ghost use Rattle.std.specs.Prelude.{◌≡◌, not, ◌==◌, ℕ, List, map, IfOk};
ghost use Rattle.std.specs.List.{list_any};
ghost use Rattle.mi_text.specs.Maps.{Map};
ghost use Rattle.mi_image.specs.Items.{machine_over};
ghost use Rattle.mi_dirs.specs.Places.{Place};
ghost use Rattle.mi_schema.specs.Lawful.{IsLawful};
ghost use Rattle.mi_schema.specs.RowsOf.{rows_in, behind};
ghost use Rattle.mi_model.specs.World.{Given};
ghost use Rattle.mi_model.specs.Components.{has_other_client};
ghost use Rattle.mi_model.specs.Selecting.{record_of_product};
ghost use Rattle.mi_components.specs.Actions.{present_kept, choice_kept, component_choice};
ghost use Rattle.mi_features.specs.Requests.{choice_to};

use crate::component::{ComponentChoice, action_of};
use crate::holders::{Held, Holders, held_at, held_by};
use mi_base::{Client, Env, Guid, NoMemory};
use mi_features::{Asked, holds, product_code, record_of};
use mi_image::Image;
use mi_schema::{ComponentRow, Package, keys_apart, keys_stand};
use std::alloc::Global;

fn any_other(clients: &[Client], code: Guid) -> bool
    ensures { result ≡ list_any (λ c. not (c.product.number == code.number)) clients.now }
{
    for client in clients {
        if client.product.number != code.number {
            return true;
        }
    }
    false
}

/// Whether another product or the system is a client of the component.
fn has_other_client(
    alloc: Global,
    former: &Image,
    code: Guid,
    id: Option<Guid>,
) -> Result<bool, NoMemory>
    ensures { (held files : Map (List ℕ)) → IfOk result (λ other. other ≡ has_other_client (machine_over held files former.now) code.number id) }
{
    match id {
        Some(id) => {
            let clients = former.clients_of(alloc, id)?;
            Ok(any_other(&clients, code))
        }
        None => Ok(false),
    }
}

/// Whether the component is there. `recorded` says that a recorded feature holds it.
fn is_present(former: &Image, code: Guid, id: Option<Guid>, recorded: bool) -> bool
    ensures { (held files : Map (List ℕ)) → result ≡ present_kept (machine_over held files former.now) code.number recorded id }
{
    match id {
        Some(id) => former.client(id, code).is_some(),
        None => recorded,
    }
}

/// What becomes of the component of a row, of which its features say so.
fn choice_of<E: Env>(
    alloc: Global,
    former: &Image,
    code: Guid,
    env: &E,
    held: &Held,
    row: &ComponentRow,
) -> Result<ComponentChoice, NoMemory>
    ensures { (map files : Map (List ℕ)) → IfOk result (λ choice. choice ≡ choice_kept (machine_over map files former.now) code.number (E.lookups env.now) held.now row.now) }
{
    let holders = held_at(held, row.component.as_str());
    let present = is_present(former, code, row.component_id, holders.recorded);
    let holds = holds(&row.condition, env);
    let action = action_of(row.component_id.is_some(), holds, present, holders);
    let other_client = has_other_client(alloc, former, code, row.component_id)?;
    Ok(ComponentChoice {
        action,
        present,
        other_client,
    })
}

/// What becomes of each component, in file order, by what the features say.
fn choices_of<E: Env>(
    alloc: Global,
    loaded: &Package,
    former: &Image,
    code: Guid,
    env: &E,
    held: &Held,
) -> Result<Vec<ComponentChoice>, NoMemory>
    ensures { (names files : Map (List ℕ)) → IfOk result (λ choices. choices.items ≡ map (choice_kept (machine_over names files former.now) code.number (E.lookups env.now) held.now) (behind loaded.now.component.entries)) }
{
    let mut choices = Vec::with_capacity(alloc, loaded.component.len())?;
    for row in loaded.component.values() {
        let choice = choice_of(alloc, former, code, env, held, row)?;
        choices.push(choice)?;
    }
    Ok(choices)
}

/// What becomes of the components of a package, in file order, where `asked` has what becomes of its features: what is done
/// to each, whether it was there, and whether another product or the system is its client (Component Table; FeatureComponents
/// Table). Whether it is coming, leaving or kept, `ComponentChoice` tells, given what its key path does. The package is lawful.
pub fn components<E: Env>(
    alloc: Global,
    loaded: &Package,
    former: &Image,
    env: &E,
    asked: &Asked,
) -> Result<Vec<ComponentChoice>, NoMemory>
    requires { IsLawful loaded.now }
    ensures { (held files : Map (List ℕ)) (g : Given) (dirs : List Place) (level : ℕ)
        → g.rows ≡ rows_in loaded.now → g.former ≡ machine_over held files former.now
        → asked.now.features.items ≡ map (choice_to g.rows (E.lookups env.now) (record_of_product g) level) g.rows.feature
        → IfOk result (λ choices. choices.items ≡ map (component_choice g (E.lookups env.now) dirs level) g.rows.component) }
{
    keys_stand(loaded);
    keys_apart(loaded);
    let code = product_code(alloc, loaded)?;
    let record = record_of(alloc, loaded, former)?;
    let held = held_by(alloc, loaded, asked, &record.features)?;
    let choices = choices_of(alloc, loaded, former, code, env, &held)?;
    Ok(choices)
}
