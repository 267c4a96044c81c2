ghost use Rattle.std.specs.Prelude.{◌≡◌, IfOk, IfErr, Err, map, drop, List};
ghost use Rattle.std.specs.List.{All};
ghost use Rattle.clap.specs.Words.{FailsBy, fault_of, first_value, found_of, matches_of, rows_of};
ghost use Rattle.shop_words.specs.Options.{Given, AreOptions, IsOptionName, IsPlain, IsReading, IsWord, value_of};
ghost use Rattle.shop_words.specs.Parser.{options_app};

use clap::error::ErrorKind;
use clap::{Arg, ArgAction, ArgMatches, Command, Error};
use shop_text::{Memory, Text};
use std::alloc::{AllocError, AllocFailed, Global};

/// Why words give no command.
#[derive(Clone, Copy)]
pub(crate) enum Refusal {
    /// They are not in the grammar.
    Bad,
    /// Memory ran out.
    Memory,
}

impl From<AllocError> for Refusal {
    ghost use Rattle.shop_words.specs.declared.options.Refusal.TheVariants.{Memory};

    ghost from_gives = { λ _ e. e ≡ Memory };

    fn from(_: AllocError) -> Self {
        Refusal::Memory
    }
}

impl From<Memory> for Refusal {
    ghost use Rattle.shop_words.specs.declared.options.Refusal.TheVariants.{Memory};

    ghost from_gives = { λ _ e. e ≡ Memory };

    fn from(_: Memory) -> Self {
        Refusal::Memory
    }
}

impl<T: Drop> From<AllocFailed<T>> for Refusal {
    ghost use Rattle.shop_words.specs.declared.options.Refusal.TheVariants.{Memory};

    ghost from_gives = { λ _ e. e ≡ Memory };

    fn from(_: AllocFailed<T>) -> Self {
        Refusal::Memory
    }
}

/// The words as text. `clap` would take two hyphens alone, which are no option.
pub(crate) fn texts_of(alloc: Global, words: &[Text]) -> Result<Vec<&str>, Refusal>
    ensures texts { IfOk result (λ texts. map (λ s. s.now) texts.items ≡ words.now) }
    ensures words { IfOk result (λ _. All IsWord words.now) }
    ensures bad { result ≡ Err Refusal.Bad → ¬ (All IsWord words.now) }
{
    let mut texts = Vec::with_capacity(alloc, words.len())?;
    for word in words {
        texts.push(text_of(word)?)?;
    }
    Ok(texts)
}

fn text_of(word: &Text) -> Result<&str, Refusal>
    ensures text { IfOk result (λ text. (text.now ≡ word.now) × IsWord word.now) }
    ensures bad { IfErr result (λ _. ¬ (IsWord word.now)) }
{
    match str::from_utf8(word.bytes()) {
        Ok(text) if text != "--" => Ok(text),
        _ => Err(Refusal::Bad),
    }
}

/// The values of the options with these names among the words behind the first, which is the command.
pub(crate) fn options_of<'a>(
    alloc: Global,
    names: &[&'a str],
    words: &'a [&'a str],
) -> Result<ArgMatches<'a>, Refusal>
    requires names { All IsOptionName (map (λ s. s.now) names.now) }
    requires words { All IsWord (map (λ s. s.now) words.now) }
    ensures values { IfOk result (λ found. IsReading (map (λ s. s.now) names.entry.now)
        (drop 1 (map (λ s. s.now) words.entry.now)) (first_value (found_of found))) }
    ensures bad { result ≡ Err Refusal.Bad → (given : List Given) → AreOptions (map (λ s. s.now) names.entry.now)
        (drop 1 (map (λ s. s.now) words.entry.now)) given → ¬ (All IsPlain (map value_of given)) }
{
    match matches(alloc, names, words) {
        Ok(found) => Ok(found),
        Err(error) => {
            if error.kind() == ErrorKind::OutOfMemory {
                Err(Refusal::Memory)
            } else {
                Err(Refusal::Bad)
            }
        }
    }
}

fn matches<'a>(
    alloc: Global,
    names: &[&'a str],
    words: &'a [&'a str],
) -> Result<ArgMatches<'a>, Error>
    ensures rows { IfOk result (λ found. rows_of (found_of found)
        ≡ matches_of (options_app (map (λ s. s.now) names.entry.now)) (map (λ s. s.now) words.entry.now)) }
    ensures kinds { FailsBy (fault_of (options_app (map (λ s. s.now) names.entry.now)) (map (λ s. s.now) words.entry.now)) result }
{
    let mut command = Command::new(alloc, "");
    for name in names {
        let option = Arg::new(alloc, name).long(name).action(ArgAction::Set);
        command = command.arg(option)?;
    }
    command.try_get_matches_from(words)
}
