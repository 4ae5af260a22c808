//! The column Value of a row of Environment (Environment table, column Value).

ghost use Rattle.std.specs.Prelude.{◌≡◌};
ghost use Rattle.mi_model.specs.EnvironmentRows.{form_of, is_bad_form};
ghost use Rattle.mi_variables.specs.Forms.{meant, form_told};

use mi_base::Text;
use mi_records::lacks_zero;

/// An expanded Value of a row of Environment (Environment table, column Value).
#[derive(Clone, Copy)]
pub enum Form<'a> {
    /// It is null.
    Null,
    /// The whole value.
    Whole(&'a str),
    /// A part that is appended: it stands behind `[~];`.
    Behind(&'a str),
    /// A part that is put in front: it stands before `;[~]`.
    Before(&'a str),
}

/// The form of an expanded Value (Environment table, column Value).
pub fn form_of(text: &str) -> Form<'_>
    ensures { meant result ≡ form_of text.now }
{
    if let Some(part) = text.strip_prefix("\0;") {
        return Form::Behind(part);
    }
    match text.strip_suffix(";\0") {
        Some(part) => Form::Before(part),
        None => Form::Whole(text),
    }
}

/// The form of an expanded Value, which may be null (Environment table, column Value).
pub fn form_told(text: &Option<Text>) -> Form<'_>
    ensures { meant result ≡ form_told text.now }
{
    match text {
        Some(text) => form_of(text.as_str()),
        None => Form::Null,
    }
}

/// Whether a byte 0 stands anywhere but as the mark of a part (Environment table, column Value).
pub fn is_bad_form(form: Form<'_>) -> bool
    ensures { result ≡ is_bad_form (meant form.entry) }
{
    match form {
        Form::Null => false,
        Form::Whole(text) => !lacks_zero(text),
        Form::Behind(part) => !lacks_zero(part),
        Form::Before(part) => !lacks_zero(part),
    }
}
