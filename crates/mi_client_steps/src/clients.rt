//! What becomes of the clients of a component (ProcessComponents Action; Component Table, Attributes).

ghost use Rattle.std.specs.Prelude.{◌∷◌, [], if◌then◌else◌, List, ℕ, OnOk, Ok, map};
ghost use Rattle.mi_text.specs.Maps.{Map};
ghost use Rattle.mi_base.specs.Names.{client_name};
ghost use Rattle.mi_model.specs.ClientRows.{client_touch, the_system};
ghost use Rattle.mi_steps.specs.Follows.{drop_touch};
ghost use Rattle.mi_steps.specs.Makes.{Makes};
ghost use Rattle.mi_records.specs.Keeps.{Keeps};
ghost use Rattle.mi_records.specs.Rows as made;

use mi_base::{Client, Entry, Guid, NoMemory, Text};
use mi_records::{PlanError, drop_entry};
use mi_steps::Plan;
use std::alloc::Global;

// The system as the client of a permanent component.
const THE_SYSTEM: Guid = Guid { number: 0 };

// Puts the entry of a client. A key path of 4,294,967,296 bytes or more, which has no record, is want of memory.
fn put_client(
    alloc: Global,
    plan: &mut Plan,
    component: Guid,
    product: Guid,
    path: &str,
) -> Result<(), NoMemory>
    ensures makes { (held files : Map (List ℕ)) → OnOk result (Makes held files plan.old plan.new (client_touch component path.now product.number ∷ [])) }
    ensures keeps { Keeps plan.old plan.new }
{
    let key_path = Text::copy_of(alloc, path)?;
    let client = Entry::Client(Client {
        component,
        product,
        key_path,
    });
    match plan.put(alloc, client) {
        Ok(()) => Ok(()),
        Err(_) => Err(NoMemory),
    }
}

/// Puts the entry of a product as a client of a component, and that of the system too where the component is permanent, both with
/// this key path, whatever stood there. A key path of 4,294,967,296 bytes or more, which has no record, is want of memory
/// (ProcessComponents Action; Component Table, Attributes).
pub fn put_clients(
    alloc: Global,
    plan: &mut Plan,
    component: Guid,
    product: Guid,
    path: &str,
    permanent: bool,
) -> Result<(), NoMemory>
    ensures makes { (held files : Map (List ℕ)) → OnOk result (Makes held files plan.old plan.new (map (client_touch component path.now) (product.number ∷ (if permanent then the_system ∷ [] else [])))) }
    ensures keeps { Keeps plan.old plan.new }
{
    put_client(alloc, plan, component, product, path)?;
    if permanent {
        put_client(alloc, plan, component, THE_SYSTEM, path)
    } else {
        Ok(())
    }
}

// Takes away the entry of a product as a client.
fn drop_client(
    alloc: Global,
    plan: &mut Plan,
    component: Guid,
    product: Guid,
) -> Result<(), NoMemory>
    ensures makes { (held files : Map (List ℕ)) → OnOk result (Makes held files plan.old plan.new (drop_touch (client_name component.number product.number) ∷ [])) }
    ensures keeps { Keeps plan.old plan.new }
{
    let client = Entry::Client(Client {
        component,
        product,
        key_path: Text::new(alloc),
    });
    let done = drop_entry(alloc, plan, &client);
    drop(client);
    done
}

/// Takes a product's client of a component away, if there is one. Nothing refuses it: its only error is want of memory
/// (ProcessComponents Action).
pub fn take_client(
    alloc: Global,
    plan: &mut Plan,
    component: Guid,
    product: Guid,
) -> Result<(), PlanError>
    ensures row { (held files : Map (List ℕ)) → made.Row held files plan.old plan.new (λ m. Ok (drop_touch (client_name component.number product.number) ∷ [])) result }
    ensures keeps { Keeps plan.old plan.new }
{
    match drop_client(alloc, plan, component, product) {
        Ok(()) => Ok(()),
        Err(_) => Err(PlanError::NoMemory),
    }
}
