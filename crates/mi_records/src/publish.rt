//! PublishProduct: the product's record.

ghost use Rattle.std.specs.Prelude.{◌≡◌, ◌∷◌, [], List, ℕ, OnOk, true};
ghost use Rattle.mi_text.specs.Maps.{Map};
ghost use Rattle.mi_base.specs.declared.entry.Entry.TheVariants.{Product as ProductEntry};
ghost use Rattle.mi_base.specs.Limits.{fits};
ghost use Rattle.mi_base.specs.Names.{product_name};
ghost use Rattle.mi_base.specs.Spelling.{name_of};
ghost use Rattle.mi_image.specs.Items.{AreThere};
ghost use Rattle.mi_image.specs.Overlays.{former_items, present_items};
ghost use Rattle.mi_model.specs.World.{World};
ghost use Rattle.mi_model.specs.PublishProduct.{publish_product};
ghost use Rattle.mi_schema.specs.Lawful.{IsLawful};
ghost use Rattle.mi_steps.specs.Follows.{Grows, drop_touch, put_touch};
ghost use Rattle.mi_steps.specs.Makes.{Makes, plan_machine};
ghost use Rattle.mi_records.specs.Choices.{IsAsked};
ghost use Rattle.mi_records.specs.Keeps.{Keeps};
ghost use Rattle.mi_records.specs.Products.{product_touch};
ghost use Rattle.mi_records.specs.Rows.{Phase};

use crate::error::PlanError;
use crate::keys::name_of;
use crate::product::{NO_VERSION, product_seen};
use crate::sees::Sees;
use mi_base::{Entry, Guid, NoMemory, Product, Text, Texts};
use mi_steps::Plan;
use std::alloc::Global;

/// Takes away what stands at the name of an entry.
pub fn drop_entry(alloc: Global, plan: &mut Plan, entry: &Entry) -> Result<(), NoMemory>
    requires { fits entry.now ≡ true }
    ensures makes { (held files : Map (List ℕ)) → OnOk result (Makes held files plan.old plan.new (drop_touch (name_of entry.now) ∷ [])) }
    ensures keeps { Keeps plan.old plan.new }
{
    match name_of(alloc, entry) {
        Ok(name) => plan.drop_name(alloc, &name),
        Err(_) => Err(NoMemory),
    }
}

// Takes away the record of the product with this code.
fn unrecord(alloc: Global, plan: &mut Plan, code: Guid) -> Result<(), NoMemory>
    ensures makes { (held files : Map (List ℕ)) → OnOk result (Makes held files plan.old plan.new (drop_touch (product_name code.number) ∷ [])) }
    ensures keeps { Keeps plan.old plan.new }
{
    let product = Entry::Product(Product {
        code,
        name: Text::new(alloc),
        version: NO_VERSION,
        language: 0,
        features: Texts::new(alloc),
    });
    let done = drop_entry(alloc, plan, &product);
    drop(product);
    done
}

// Puts the record of a product. One past the limits of its kind, which no lawful package has, is want of memory.
fn put_record(alloc: Global, plan: &mut Plan, product: Product) -> Result<(), NoMemory>
    ensures makes { (held files : Map (List ℕ)) → OnOk result (Makes held files plan.old plan.new (put_touch (product_name product.code.number) (ProductEntry product) ∷ [])) }
    ensures keeps { Keeps plan.old plan.new }
{
    match plan.put(alloc, Entry::Product(product)) {
        Ok(()) => Ok(()),
        Err(_) => Err(NoMemory),
    }
}

// Records a product while it has features.
fn record_product(alloc: Global, plan: &mut Plan, product: Product) -> Result<(), NoMemory>
    ensures makes { (held files : Map (List ℕ)) → OnOk result (Makes held files plan.old plan.new (product_touch product ∷ [])) }
    ensures keeps { Keeps plan.old plan.new }
{
    if product.features.is_empty() {
        let code = product.code;
        drop(product);
        unrecord(alloc, plan, code)
    } else {
        put_record(alloc, plan, product)
    }
}

/// PublishProduct: the product's record, with ProductCode, ProductName, ProductVersion and ProductLanguage as the rows of the
/// Property table state them and the features that are local after the run, in byte order; without features no record
/// (PublishProduct Action).
pub fn plan_publish_product<S: Sees>(
    alloc: Global,
    seen: &S,
    plan: &mut Plan,
) -> Result<(), PlanError>
    requires { IsLawful (S.rows seen.now) }
    ensures phase { (held files : Map (List ℕ)) (w : World) → IsAsked (S.lookups seen.now) (S.choices seen.now) (S.rows seen.now) w → w.machine ≡ plan_machine held files plan.old → Phase held files plan.old plan.new publish_product w result }
    ensures there { (held files : Map (List ℕ)) → AreThere held files (present_items plan.old.overlay) → AreThere held files (present_items plan.new.overlay) }
    ensures former { former_items plan.new.overlay ≡ former_items plan.old.overlay }
    ensures grows { Grows plan.old.script plan.new.script }
{
    match product_seen(alloc, seen) {
        Ok(product) => match record_product(alloc, plan, product) {
            Ok(()) => Ok(()),
            Err(_) => Err(PlanError::NoMemory),
        },
        Err(_) => Err(PlanError::NoMemory),
    }
}
