//! From a module of version 1 of the format to one of version 2.

ghost use Rattle.std.specs.Prelude.{◌≡◌, ◌⊎◌, Err, IfErr, IfOk};
ghost use Rattle.model.specs.declared.format.Version.TheVariants as versions;
ghost use Rattle.model.specs.Module.Loading.{LoadsIn};
ghost use Rattle.loader.specs.Answers.{no_memory};
ghost use Rattle.driver.specs.Upgraded.{IsUpgradeOf};

use loader::load_v1;
use model::{FormatFault, FormatRule, LoadFault};
use module_format::write_image;
use std::alloc::Global;

/// The module of level 1 that does what a module of version 1 does, or why that one is refused.
pub fn upgrade(alloc: Global, bytes: &[u8]) -> Result<Vec<u8>, LoadFault>
    // The bytes are written anew with the level, and with no card known; what they do stays.
    ensures upgraded { IfOk result (λ newer. IsUpgradeOf bytes.now newer.items) }
    // The bytes are refused by the rules of version 1, or memory was.
    ensures refused { IfErr result (λ fault. (fault ≡ no_memory) ⊎ LoadsIn versions.One bytes.now (Err fault)) }
{
    let image = load_v1(alloc, bytes)?;
    match write_image(alloc, &image) {
        Ok(newer) => Ok(newer),
        Err(_) => Err(LoadFault::Format(FormatFault {
            offset: 0,
            rule: FormatRule::Memory,
        })),
    }
}
