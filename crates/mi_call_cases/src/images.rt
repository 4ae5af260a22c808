//! Calls of the image of the machine that the names which are given spell.

use crate::given::Given;
use crate::lists;
use crate::values::say_value;
use mi_base::{PathText, Shortcut};
use mi_image::{Content, Image, ImageError};
use mi_lines::{Call, Stop, code, holding, is_system, path, root};
use std::alloc::Global;

fn say_file(image: &Image, path: &PathText, call: &mut Call<'_>) {
    match image.file(path) {
        Some(head) => call.say_number(head.shown.as_str(), head.length),
        None => call.say_word("none"),
    }
}

fn say_content(image: &Image, path: &PathText, call: &mut Call<'_>) {
    match image.content(path) {
        Some(Content::Own) => call.say_word("Own"),
        Some(Content::Held(name)) => call.say_two(b"Held", name.as_bytes()),
        Some(Content::Copied(path)) => call.say_two(b"Copied", path.as_bytes()),
        None => call.say_word("none"),
    }
}

fn say_target(shortcut: &Shortcut, call: &mut Call<'_>) {
    let shown = shortcut.shown.as_str().as_bytes();
    call.say_two(shown, shortcut.target.as_bytes());
}

fn say_shortcut(image: &Image, path: &PathText, call: &mut Call<'_>) {
    match image.shortcut(path) {
        Some(shortcut) => say_target(shortcut, call),
        None => call.say_word("none"),
    }
}

/// Makes a look-up or a list by a path.
fn look_at_path(image: &Image, name: &str, path: &PathText, call: &mut Call<'_>) {
    match name {
        "image-file" => say_file(image, path, call),
        "image-content" => say_content(image, path, call),
        "image-folder" => call.say_whether(image.folder(path)),
        "image-shortcut" => say_shortcut(image, path, call),
        _ => lists::list_below(image, name, path, call),
    }
}

fn look_at(image: &Image, name: &str, call: &mut Call<'_>) {
    if let Some(path) = &path(0, call) {
        look_at_path(image, name, path, call);
    }
}

fn say_found(found: Option<&str>, call: &mut Call<'_>) {
    call.say_word(found.unwrap_or("none"));
}

fn say_registry(image: &Image, call: &mut Call<'_>) {
    let root = root(0, call);
    match image.value(root, call.text(1), call.text(2)) {
        Some(value) => say_value(value, call),
        None => call.say_word("none"),
    }
}

fn say_variable(image: &Image, call: &mut Call<'_>) {
    let system = is_system(0, call);
    say_found(image.variable(system, call.text(1)), call);
}

fn say_key(image: &Image, call: &mut Call<'_>) {
    let root = root(0, call);
    let key = call.text(1);
    call.say_whether(image.key(root, key));
}

fn say_client(image: &Image, call: &mut Call<'_>) {
    let (component, product) = (code(0, call), code(1, call));
    match image.client(component, product) {
        Some(client) => call.say(client.key_path.as_bytes()),
        None => call.say_word("none"),
    }
}

fn say_product(image: &Image, call: &mut Call<'_>) {
    match image.product(code(0, call)) {
        Some(product) => call.say(product.name.as_bytes()),
        None => call.say_word("none"),
    }
}

fn look(image: &Image, name: &str, call: &mut Call<'_>) {
    match name {
        "image-value" => say_registry(image, call),
        "image-key" => say_key(image, call),
        "image-variable" => say_variable(image, call),
        "image-client" => say_client(image, call),
        "image-product" => say_product(image, call),
        "image-system" => say_found(image.system(call.text(0)), call),
        "image-keys" => lists::list_keys(image, call),
        "image-values" => lists::list_values(image, call),
        "image-names" => lists::list_names(image, call),
        "image-clients-of" => lists::list_clients_of(image, call),
        _ => look_at(image, name, call),
    }
}

fn ask(image: &Image, name: &str, call: &mut Call<'_>) {
    match name {
        "scan" => call.say_word("Ok"),
        "clients-text" => lists::say_clients_text(image, call),
        "products-text" => lists::say_products_text(image, call),
        "image-clients" => lists::list_clients(image, call),
        "image-products" => lists::list_products(image, call),
        _ => look(image, name, call),
    }
}

fn say_scanned(scanned: &Result<Image, ImageError>, name: &str, call: &mut Call<'_>) {
    match scanned {
        Ok(image) => ask(image, name, call),
        Err(ImageError::NoMemory) => call.no_memory(),
        Err(ImageError::Fault) => call.say_word("Fault"),
        Err(ImageError::BadImage(bad)) => call.say_two(b"BadImage", bad.as_bytes()),
    }
}

fn scanned(alloc: Global, given: &Given) -> Result<Result<Image, ImageError>, Stop> {
    let mut volume = holding(alloc, &given.volume)?;
    let scanned = Image::scan(alloc, &mut volume);
    drop(volume);
    Ok(scanned)
}

/// Makes the call of this name over the image of what the volume holds.
pub fn call(given: &Given, name: &str, call: &mut Call<'_>) {
    match &scanned(call.alloc(), given) {
        Ok(scanned) => say_scanned(scanned, name, call),
        Err(stop) => call.stop(*stop),
    }
}
