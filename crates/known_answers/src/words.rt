//! The words of commands.
use crate::answers::{answer, heading};
use crate::stop::Stop;
use shop_text::{Memory, Text};
use shop_words::{command_of, is_kept, is_polled, kept_command_of, poll_of};
use std::alloc::Global;
use std::fmt::Debug;

/// The words on one line. Two apostrophes are an empty word.
fn words_of(alloc: Global, line: &str) -> Result<Vec<Text>, Memory> {
    let mut words = Vec::new(alloc);
    for word in line.split(' ') {
        let word = if word == "''" { "" } else { word };
        words.push(Text::copy(alloc, word.as_bytes())?)?;
    }
    Ok(words)
}

/// Prints what the words on a line say.
pub fn print_line(rt: &(impl Print + AllocGlobal), line: &str) -> Result<(), Stop> {
    print_command(rt, &line, &words_of(rt.alloc(), line)?)
}

/// Prints which command words give, by the grammar for which their first one is.
fn print_command(
    rt: &(impl Print + AllocGlobal),
    asked: &impl Debug,
    words: &[Text],
) -> Result<(), Stop> {
    if is_kept(words) {
        answer(rt, asked, &kept_command_of(rt.alloc(), words))
    } else if is_polled(words) {
        answer(rt, asked, &poll_of(rt.alloc(), words))
    } else {
        answer(rt, asked, &command_of(rt.alloc(), words))
    }
}

/// The name of a command, and a word that may be no text.
fn two_words(alloc: Global, command: &str, second: &[u8]) -> Result<Vec<Text>, Memory> {
    let mut words = words_of(alloc, command)?;
    words.push(Text::copy(alloc, second)?)?;
    Ok(words)
}

/// Prints what no words say, and words that are no text.
pub fn print_no_words(rt: &(impl Print + AllocGlobal)) -> Result<(), Stop> {
    print_command(rt, &"no words", &[])?;
    heading(rt, "words that are not text are bad")?;
    for second in [&b"--seed=\xff"[..], &b"\xc3"[..], &b"-\xc3"[..]] {
        print_second(rt, "session", second)?;
    }
    heading(
        rt,
        "the name of a journal's file is text, and need not be ASCII",
    )?;
    for second in [
        &b"--journal=\xff"[..],
        &b"--journal=a\xc3"[..],
        &b"--journal=\xed\xa0\x80"[..],
        &b"--journal=\xc3\xa9"[..],
    ] {
        print_second(rt, "keep", second)?;
    }
    Ok(())
}

/// Prints which command this one's name and another word give.
fn print_second(rt: &(impl Print + AllocGlobal), command: &str, second: &[u8]) -> Result<(), Stop> {
    print_command(rt, &second, &two_words(rt.alloc(), command, second)?)
}

/// Prints which first words are those of the commands of a journal, and that the other grammar has none of them.
pub fn print_kept(rt: &(impl Print + AllocGlobal)) -> Result<(), Stop> {
    heading(rt, "a journal is kept where the first word says so")?;
    answer(rt, &"no words", &is_kept(&[]))?;
    for line in [
        "keep",
        "keep keep",
        "migrate",
        "migrate --journal=a",
        "''",
        "Keep",
        "kee",
        "keeps",
        "MIGRATE",
        "migrated",
        "session",
        "session keep",
        "'' migrate",
        "--keep",
    ] {
        answer(rt, &line, &is_kept(&words_of(rt.alloc(), line)?))?;
    }
    heading(rt, "each grammar has its own commands")?;
    for line in ["keep --journal=a", "migrate --from=a --to=b", "poll"] {
        answer(
            rt,
            &line,
            &command_of(rt.alloc(), &words_of(rt.alloc(), line)?),
        )?;
    }
    for line in ["session", "gateway", "poll"] {
        answer(
            rt,
            &line,
            &kept_command_of(rt.alloc(), &words_of(rt.alloc(), line)?),
        )?;
    }
    Ok(())
}

/// Prints which first words are that of the command of lanes, and that its grammar has no other command.
pub fn print_polled(rt: &(impl Print + AllocGlobal)) -> Result<(), Stop> {
    heading(rt, "lanes are polled where the first word says so")?;
    answer(rt, &"no words", &is_polled(&[]))?;
    for line in [
        "poll",
        "poll poll",
        "''",
        "Poll",
        "pol",
        "polls",
        "serve",
        "keep poll",
        "--poll",
    ] {
        answer(rt, &line, &is_polled(&words_of(rt.alloc(), line)?))?;
    }
    heading(rt, "its grammar has no other command")?;
    for line in ["serve", "keep --journal=a", "''"] {
        answer(
            rt,
            &line,
            &poll_of(rt.alloc(), &words_of(rt.alloc(), line)?),
        )?;
    }
    answer(rt, &"no words", &poll_of(rt.alloc(), &[]))
}
