//! The product's record before the run.

ghost use Rattle.std.specs.Prelude.{◌≡◌, [], codes, List, ℕ, is_none, unwrap_or, option_map, option_copied, IfOk};
ghost use Rattle.std.specs.BTreeSet.{contains};
ghost use Rattle.mi_text.specs.Guid.{guid_of};
ghost use Rattle.mi_text.specs.Maps.{Map, Name, name_cmp, is_among};
ghost use Rattle.mi_base.specs.Machine.{product_at};
ghost use Rattle.mi_image.specs.Items.{machine_over};
ghost use Rattle.mi_schema.specs.Lawful.{IsLawful};
ghost use Rattle.mi_schema.specs.RowsOf.{rows_in};
ghost use Rattle.mi_schema.specs.TableRows.{table_value, product_code};
ghost use Rattle.mi_features.specs.Records.{IsRecord, recorded_in};

use mi_base::{Guid, NoMemory, Product, Text};
use mi_image::Image;
use mi_schema::{Package, keys_stand};
use mi_wishes::set_of;
use std::alloc::Global;
use std::collections::BTreeSet;

/// The features of the product's record.
#[derive(Drop)]
pub struct Record {
    pub features: BTreeSet<Text>,
    /// Whether there is no record.
    pub is_new: bool,
}

fn code_in(text: &str) -> Guid
    ensures { result.number ≡ unwrap_or (guid_of text.now) 0 }
{
    match Guid::read(text) {
        Ok(code) => code,
        Err(_) => Guid { number: 0 },
    }
}

fn table_value<'a>(loaded: &'a Package, name: &Text) -> &'a str
    requires { IsLawful loaded.now }
    ensures { result.now ≡ table_value (rows_in loaded.now) name.now }
{
    keys_stand(loaded);
    match loaded.property.get(name) {
        Some(row) => row.value.as_str(),
        None => "",
    }
}

/// The code of the product (ProductCode Property).
pub fn product_code(alloc: Global, loaded: &Package) -> Result<Guid, NoMemory>
    requires { IsLawful loaded.now }
    ensures { IfOk result (λ code. code.number ≡ product_code (rows_in loaded.now)) }
{
    let name = Text::copy_of(alloc, "ProductCode")?;
    Ok(code_in(table_value(loaded, &name)))
}

fn record_in(alloc: Global, product: Option<&Product>) -> Result<Record, NoMemory>
    ensures { IfOk result (IsRecord (option_map (λ p. p.features) (option_copied product.entry))) }
{
    match product {
        Some(product) => {
            let features = set_of(alloc, product.features.as_slice())?;
            Ok(Record {
                features,
                is_new: false,
            })
        }
        None => Ok(Record {
            features: BTreeSet::new(alloc),
            is_new: true,
        }),
    }
}

/// The product's record.
pub fn record_of(alloc: Global, loaded: &Package, former: &Image) -> Result<Record, NoMemory>
    requires { IsLawful loaded.now }
    ensures { (held files : Map (List ℕ)) → IfOk result (IsRecord (recorded_in (machine_over held files former.now) (rows_in loaded.now))) }
{
    let code = product_code(alloc, loaded)?;
    let record = record_in(alloc, former.product(code))?;
    Ok(record)
}
