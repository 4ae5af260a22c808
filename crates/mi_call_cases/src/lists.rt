//! The lists of an image, and the listings.

use mi_base::{Bytes, Client, Guid, NoMemory, PathText, Product, Text, ValueKey};
use mi_image::Image;
use mi_lines::{Call, code, root};
use mi_report::{clients_text, products_text};

fn push_paths(paths: &[PathText], call: &mut Call<'_>) {
    for path in paths {
        call.say_word(path.as_str());
    }
}

fn say_paths(paths: &Result<Vec<PathText>, NoMemory>, call: &mut Call<'_>) {
    match paths {
        Ok(paths) => push_paths(paths.as_slice(), call),
        Err(NoMemory) => call.no_memory(),
    }
}

/// Adds the files, folders or shortcuts below a folder.
pub fn list_below(image: &Image, name: &str, folder: &PathText, call: &mut Call<'_>) {
    match name {
        "image-files" => say_paths(&image.files_below(call.alloc(), folder), call),
        "image-folders" => say_paths(&image.folders_below(call.alloc(), folder), call),
        "image-shortcuts" => say_paths(&image.shortcuts_below(call.alloc(), folder), call),
        _ => call.bad_line(),
    }
}

fn push_keys(keys: &[Text], call: &mut Call<'_>) {
    for key in keys {
        call.say(key.as_bytes());
    }
}

/// Adds the keys below a key.
pub fn list_keys(image: &Image, call: &mut Call<'_>) {
    let (root, key) = (root(0, call), call.text(1));
    match &image.keys_below(call.alloc(), root, key) {
        Ok(keys) => push_keys(keys.as_slice(), call),
        Err(NoMemory) => call.no_memory(),
    }
}

fn push_values(values: &[ValueKey], call: &mut Call<'_>) {
    for value in values {
        call.say_two(value.key.as_bytes(), value.shown.as_bytes());
    }
}

/// Adds the values below a key.
pub fn list_values(image: &Image, call: &mut Call<'_>) {
    let (root, key) = (root(0, call), call.text(1));
    match &image.values_below(call.alloc(), root, key) {
        Ok(values) => push_values(values.as_slice(), call),
        Err(NoMemory) => call.no_memory(),
    }
}

fn push_names(names: &[&str], call: &mut Call<'_>) {
    for name in names {
        call.say_word(name);
    }
}

/// Adds the names of the volume that begin so.
pub fn list_names(image: &Image, call: &mut Call<'_>) {
    let front = call.text(0);
    match &image.names(call.alloc(), front) {
        Ok(names) => push_names(names.as_slice(), call),
        Err(NoMemory) => call.no_memory(),
    }
}

fn push_code(code: Guid, call: &mut Call<'_>) {
    match &code.print(call.alloc()) {
        Ok(text) => call.push(text.as_bytes()),
        Err(NoMemory) => call.no_memory(),
    }
}

fn push_clients(clients: &[Client], call: &mut Call<'_>) {
    for client in clients {
        push_code(client.product, call);
        call.push(b"\t");
        call.say(client.key_path.as_bytes());
    }
}

fn say_clients(clients: &Result<Vec<Client>, NoMemory>, call: &mut Call<'_>) {
    match clients {
        Ok(clients) => push_clients(clients.as_slice(), call),
        Err(NoMemory) => call.no_memory(),
    }
}

/// Adds the clients.
pub fn list_clients(image: &Image, call: &mut Call<'_>) {
    say_clients(&image.clients(call.alloc()), call);
}

/// Adds the clients of a component.
pub fn list_clients_of(image: &Image, call: &mut Call<'_>) {
    let component = code(0, call);
    say_clients(&image.clients_of(call.alloc(), component), call);
}

fn push_products(products: &[Product], call: &mut Call<'_>) {
    for product in products {
        push_code(product.code, call);
        call.push(b"\t");
        call.say(product.name.as_bytes());
    }
}

/// Adds the products.
pub fn list_products(image: &Image, call: &mut Call<'_>) {
    match &image.products(call.alloc()) {
        Ok(products) => push_products(products.as_slice(), call),
        Err(NoMemory) => call.no_memory(),
    }
}

fn push_lines(lines: &Result<Bytes, NoMemory>, call: &mut Call<'_>) {
    match lines {
        Ok(lines) => call.push(lines.as_slice()),
        Err(NoMemory) => call.no_memory(),
    }
}

/// Adds the listing of the clients.
pub fn say_clients_text(image: &Image, call: &mut Call<'_>) {
    push_lines(&clients_text(call.alloc(), image), call);
}

/// Adds the listing of the products.
pub fn say_products_text(image: &Image, call: &mut Call<'_>) {
    push_lines(&products_text(call.alloc(), image), call);
}
