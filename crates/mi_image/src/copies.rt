//! Copies of what an image holds.

ghost use Rattle.std.specs.Prelude.{◌≡◌, IfOk};

use mi_base::{Client, NoMemory, Product, Text, Texts, ValueKey};
use std::alloc::Global;

fn copy_texts(alloc: Global, texts: &Texts) -> Result<Texts, NoMemory>
    ensures { IfOk result (λ t. t ≡ texts.now) }
{
    let mut copy = Texts::new(alloc);
    for text in texts.as_slice() {
        copy.push(Text::copy_of(alloc, text.as_str())?)?;
    }
    Ok(copy)
}

/// A copy of a product.
pub fn copy_product(alloc: Global, product: &Product) -> Result<Product, NoMemory>
    ensures { IfOk result (λ p. p ≡ product.now) }
{
    Ok(Product {
        code: product.code,
        name: Text::copy_of(alloc, product.name.as_str())?,
        version: product.version,
        language: product.language,
        features: copy_texts(alloc, &product.features)?,
    })
}

/// A copy of a client.
pub fn copy_client(alloc: Global, client: &Client) -> Result<Client, NoMemory>
    ensures { IfOk result (λ c. c ≡ client.now) }
{
    Ok(Client {
        component: client.component,
        product: client.product,
        key_path: Text::copy_of(alloc, client.key_path.as_str())?,
    })
}

/// A copy of where a value stands.
pub fn copy_value_key(alloc: Global, key: &ValueKey) -> Result<ValueKey, NoMemory>
    ensures { IfOk result (λ k. k ≡ key.now) }
{
    Ok(ValueKey {
        root: key.root,
        key: Text::copy_of(alloc, key.key.as_str())?,
        shown: Text::copy_of(alloc, key.shown.as_str())?,
    })
}
