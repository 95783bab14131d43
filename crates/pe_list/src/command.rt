//! The command line.

ghost use Rattle.std.specs.Prelude.{◌≡◌, map, string_bytes};
ghost use Rattle.std.specs.Vec.Iter.{into_iter_items};
ghost use Rattle.pe_list.specs.Command.{mode_of_words};

use goblin_pe::options::ParseMode;
use std::env::Args;

/// The line that is printed after a wrong use.
pub const USAGE: &str = "usage: pe_list [--permissive]";

/// The mode that the words ask for. The first word is the program's name. The mode is strict
/// without another word, and permissive with the one word `--permissive`. It is `None` after a
/// wrong use.
pub fn mode_of(mut words: Args) -> Option<ParseMode>
    ensures { result ≡ mode_of_words (map string_bytes (into_iter_items words)) }
{
    let _program = words.next();
    let Some(word) = words.next() else {
        return Some(ParseMode::Strict);
    };
    if words.next().is_some() || word.as_str() != "--permissive" {
        return None;
    }
    Some(ParseMode::Permissive)
}
