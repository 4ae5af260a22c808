//! What stands in an image lies outside of the rollback area.

ghost use Rattle.std.specs.Prelude.{◌≡◌, is_some, false, true};
ghost use Rattle.std.specs.FinMap.{get};
ghost use Rattle.mi_undo.specs.Names.{is_inside};

use mi_base::Name;
use mi_image::Image;

/// Whether something stands at a name, which lies outside of the rollback area then.
pub fn is_held(image: &Image, name: &Name) -> bool
    ensures held { result ≡ is_some (get image.now name.now) }
    ensures outside { result ≡ true → is_inside name.now ≡ false }
{
    image.get(name.as_str()).is_some()
}

/// A name at which something stands lies outside of the rollback area.
pub fn stands_outside(image: &Image, name: &Name)
    requires { is_some (get image.now name.now) ≡ true }
    ensures { is_inside name.now ≡ false }
{
    is_held(image, name);
}
