//! The listings.

ghost use Rattle.std.specs.Prelude.{◌≡◌, ◌++◌, ◌∷◌, [], List, ℕ, IfOk, OnOk, codes};
ghost use Rattle.std.specs.Fmt.{decimal};
ghost use Rattle.std.specs.List.{flat_map};
ghost use Rattle.mi_text.specs.Guid.{guid_text};
ghost use Rattle.mi_text.specs.Maps.{Map};
ghost use Rattle.mi_image.specs.Items.{machine_over};
ghost use Rattle.mi_model.specs.Lines.{shown, spaced};
ghost use Rattle.mi_model.specs.Listings.{version_text, features_text, product_line, products_text_of, client_line, clients_text_of};

use crate::words::{push_field, push_number, push_shown, push_text};
use mi_base::{Bytes, Client, Guid, NoMemory, Product, Text, Version};
use mi_image::Image;
use std::alloc::Global;

fn push_code(alloc: Global, out: &mut Vec<u8>, code: Guid) -> Result<(), NoMemory>
    ensures { OnOk result (out.new.items ≡ out.old.items ++ guid_text code.number) }
{
    let text = code.print(alloc)?;
    out.extend_from_slice(text.as_str().as_bytes())?;
    Ok(())
}

// A point and a number.
fn push_part(alloc: Global, out: &mut Vec<u8>, part: u16) -> Result<(), NoMemory>
    ensures { OnOk result (out.new.items ≡ out.old.items ++ codes "." ++ decimal part) }
{
    out.push(b'.')?;
    push_number(alloc, out, u64::from(part))
}

// A blank and a version.
#[tactic(auto, unfolding(mi_model::specs::Listings::version_text))]
fn push_version(alloc: Global, out: &mut Vec<u8>, version: Version) -> Result<(), NoMemory>
    ensures { OnOk result (out.new.items ≡ out.old.items ++ spaced (version_text version ∷ [])) }
{
    push_field(alloc, out, u64::from(version.major))?;
    push_part(alloc, out, version.minor)?;
    push_part(alloc, out, version.build)?;
    push_part(alloc, out, version.revision)
}

// A comma and a text for each.
fn push_more(out: &mut Vec<u8>, features: &[Text]) -> Result<(), NoMemory>
    ensures { OnOk result (out.new.items ≡ out.old.items ++ flat_map (λ text. codes "," ++ shown text) features.now) }
{
    for feature in features {
        out.push(b',')?;
        push_shown(out, feature.as_str())?;
    }
    Ok(())
}

// A blank and the features.
#[tactic(auto, unfolding(mi_model::specs::Listings::features_text))]
fn push_features(out: &mut Vec<u8>, features: &[Text]) -> Result<(), NoMemory>
    ensures { OnOk result (out.new.items ≡ out.old.items ++ spaced (features_text features.now ∷ [])) }
{
    out.push(b' ')?;
    match features.split_first() {
        None => Ok(()),
        Some((first, rest)) => {
            push_shown(out, first.as_str())?;
            push_more(out, rest)
        }
    }
}

/// What has a line in a listing.
pub trait Line {
    ghost use Rattle.std.specs.Prelude.{List, ℕ};

    /// The line.
    ghost line: { Self → List ℕ };

    /// Adds the line.
    fn push_line(&self, alloc: Global, out: &mut Vec<u8>) -> Result<(), NoMemory>
        ensures { OnOk result (out.new.items ≡ out.old.items ++ line self.now) };
}

impl Line for Product {
    ghost line = { product_line };

    #[tactic(auto, unfolding(mi_model::specs::Listings::product_line))]
    fn push_line(&self, alloc: Global, out: &mut Vec<u8>) -> Result<(), NoMemory> {
        push_code(alloc, out, self.code)?;
        push_version(alloc, out, self.version)?;
        push_field(alloc, out, u64::from(self.language))?;
        push_features(out, self.features.as_slice())?;
        push_text(out, self.name.as_str())?;
        out.push(b'\n')?;
        Ok(())
    }
}

impl Line for Client {
    ghost line = { client_line };

    #[tactic(auto, unfolding(mi_model::specs::Listings::client_line))]
    fn push_line(&self, alloc: Global, out: &mut Vec<u8>) -> Result<(), NoMemory> {
        push_code(alloc, out, self.component)?;
        out.push(b' ')?;
        push_code(alloc, out, self.product)?;
        push_text(out, self.key_path.as_str())?;
        out.push(b'\n')?;
        Ok(())
    }
}

/// The lines of entries, in their order.
pub fn listing<T: Drop + Line>(alloc: Global, entries: &[T]) -> Result<Bytes, NoMemory>
    ensures { IfOk result (λ bytes. bytes ≡ flat_map T.line entries.now) }
{
    let mut out = Vec::new(alloc);
    for entry in entries {
        entry.push_line(alloc, &mut out)?;
    }
    Ok(Bytes::from_vec(out))
}

/// The listing of the products (this project's own): for each a line with its code in braces and upper case, its
/// version with four numbers, its language, its features joined by `,`, and its name, by code.
pub fn products_text(alloc: Global, image: &Image) -> Result<Bytes, NoMemory>
    ensures { (held files : Map (List ℕ)) → IfOk result (λ bytes. bytes ≡ products_text_of (machine_over held files image.now)) }
{
    let products = image.products(alloc)?;
    listing(alloc, products.as_slice())
}

/// The listing of the clients (Component table): for each a line with the codes of its component and its product
/// in braces and upper case, and its key path, by component, then product.
pub fn clients_text(alloc: Global, image: &Image) -> Result<Bytes, NoMemory>
    ensures { (held files : Map (List ℕ)) → IfOk result (λ bytes. bytes ≡ clients_text_of (machine_over held files image.now)) }
{
    let clients = image.clients(alloc)?;
    listing(alloc, clients.as_slice())
}
