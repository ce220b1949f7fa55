//! What an index, a name and a number may be.

ghost use Rattle.std.specs.Prelude.{◌≡◌, bytes_eq, option_copied};
ghost use Rattle.model.specs.Language.Programs.{end_label};
ghost use Rattle.model.specs.Module.WellFormed.{is_label_name, is_nonnull_string, is_nonnull};
ghost use Rattle.model.specs.Module.WellFormed.{is_statement, is_string, unless};

use model::{ModuleRule, ReturnKind};
use module_format::ImageView;

/// The rule, unless it is kept.
pub(crate) fn rule(broken: ModuleRule, kept: bool) -> Option<ModuleRule>
    ensures { result ≡ unless broken kept }
{
    if kept { None } else { Some(broken) }
}

/// Whether there is a statement of this number.
pub(crate) fn is_statement(image: &ImageView<'_>, number: u32) -> bool
    ensures { result ≡ is_statement image.now number }
{
    number > 0 && number as usize <= image.statements().len()
}

/// Whether there is a string of this number.
pub(crate) fn is_string(image: &ImageView<'_>, number: u32) -> bool
    ensures { result ≡ is_string image.now number }
{
    (number as usize) < image.strings().len()
}

fn is_nonnull(string: Option<&[u8]>) -> bool
    ensures { result ≡ is_nonnull (option_copied string.entry) }
{
    match string {
        Some(bytes) => !bytes.is_empty(),
        None => false,
    }
}

/// Whether the string of this number is a name.
pub(crate) fn is_name(image: &ImageView<'_>, number: u32) -> bool
    ensures { result ≡ is_nonnull_string image.now number }
{
    is_nonnull(image.string(number))
}

const END: [u8; 3] = *b"END";

/// Whether bytes are the label of the last statement.
pub(crate) fn is_end(name: &[u8]) -> bool
    ensures { result ≡ bytes_eq end_label name.now }
{
    END.as_slice() == name
}

/// Whether a string may be the name of a label.
pub(crate) fn is_label_name(string: Option<&[u8]>) -> bool
    ensures { result ≡ is_label_name (option_copied string.entry) }
{
    match string {
        Some(name) => { !name.is_empty() && !is_end(name) && ReturnKind::named(name).is_none() }
        None => false,
    }
}
