//! Why a file is refused.

ghost use Rattle.std.specs.Prelude.{◌≡◌, ◌++◌, IfErr, IfOk, IsSome, MatchOption};
ghost use Rattle.std.specs.Prelude.{None, codes, option_map, string_bytes};
ghost use Rattle.goblin_pe.specs.base.Answers.{IsMemory};
ghost use Rattle.goblin_pe.specs.base.Reading.{IsRefused};
ghost use Rattle.goblin_pe.specs.base.ErrorText.{error_text};
ghost use Rattle.goblin_pe.specs.sect.Options.{default_options};
ghost use Rattle.goblin_pe.specs.Whole.{whole_file};
ghost use Rattle.goblin_pe_examples.specs.Audits.{Tells};

use goblin_pe::options::ParseOptions;
use goblin_pe::{Error, Result, Whole};
use std::alloc::Global;

/// Why strict mode refuses a file, or `None` if it reads the file.
///
/// # Errors
/// `Memory` only.
pub fn refusal(alloc: Global, bytes: &[u8]) -> Result<Option<Error>>
    ensures value { IfOk result (λ r. MatchOption r
        (IsSome ((whole_file default_options).value bytes.now))
        (IsRefused (whole_file default_options) bytes.now)) }
    ensures refused { IfErr result IsMemory }
{
    match Whole::read(alloc, bytes, &ParseOptions::default()) {
        Ok(_) => Ok(None),
        Err(Error::Memory(memory)) => Err(Error::Memory(memory)),
        Err(error) => Ok(Some(error)),
    }
}

/// A line that says why strict mode refuses a file, or `None` if it reads the file.
///
/// # Errors
/// `Memory` only.
pub fn report(alloc: Global, bytes: &[u8]) -> Result<Option<String>>
    ensures value { IfOk result
        (λ r. Tells (whole_file default_options) bytes.now (option_map string_bytes r)) }
    ensures refused { IfErr result IsMemory }
{
    match refusal(alloc, bytes)? {
        None => Ok(None),
        Some(error) => {
            let line = line_of(alloc, &error)?;
            Ok(Some(line))
        }
    }
}

fn line_of(alloc: Global, error: &Error) -> Result<String>
    ensures value { IfOk result
        (λ line. string_bytes line ≡ codes "refused: " ++ error_text error.now) }
    ensures refused { IfErr result IsMemory }
{
    let line = format!(in alloc; "refused: {error}")?;
    Ok(line)
}
