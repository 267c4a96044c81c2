//! Cases as lines of the index.
use anyhow::Result;
use shop_text::{Listed, Text};
use std::alloc::Global;

/// A line of the index: what a session is run on, and what must come of it. Lists are text here.
#[derive(Clone, Copy)]
pub struct Case<'a> {
    pub name: &'a str,
    /// The words of the program, between commas.
    words: &'a str,
    /// Files whose bytes come in, one after another; a target stands for a request of it.
    pub asks: &'a str,
    /// Files whose bytes are to be written, one after another.
    pub answers: &'a str,
    /// The line for the faults sink, without its line feed.
    pub told: &'a str,
    pub status: u8,
    /// The readings of the clock, in milliseconds.
    readings: &'a str,
    /// The calls of the gateway that fail, counted from 1.
    fails: &'a str,
}

/// A line's first column, and the others.
fn cut(line: &str) -> Option<(&str, &str)> {
    let (column, rest) = line.split_once('|')?;
    Some((column.trim(), rest))
}

/// The last column.
fn last(line: &str) -> Option<&str> {
    (!line.contains('|')).then_some(line.trim())
}

impl<'a> Case<'a> {
    /// The case of a line that has all columns, between bars, and no other.
    pub fn of_line(line: &'a str) -> Option<Case<'a>> {
        let (name, line) = cut(line)?;
        let (words, line) = cut(line)?;
        let (asks, line) = cut(line)?;
        let (answers, line) = cut(line)?;
        let (told, line) = cut(line)?;
        let (status, line) = cut(line)?;
        let (readings, line) = cut(line)?;
        Some(Case {
            name,
            words,
            asks,
            answers,
            told,
            status: status.parse().ok()?,
            readings,
            fails: last(line)?,
        })
    }

    pub fn words(&self, alloc: Global) -> Result<Vec<Text>> {
        let mut words = Vec::new(alloc);
        if self.words.is_empty() {
            return Ok(words);
        }
        for word in self.words.split(',') {
            words.push(word_of(alloc, word)?)?;
        }
        Ok(words)
    }

    pub fn readings(&self, alloc: Global) -> Result<Listed<u64>> {
        numbers(alloc, self.readings)
    }

    pub fn fails(&self, alloc: Global) -> Result<Listed<u64>> {
        numbers(alloc, self.fails)
    }
}

/// A word without the blanks round it.
fn word_of(alloc: Global, word: &str) -> Result<Text> {
    let bytes = word.trim().as_bytes().to_vec(alloc)?;
    Ok(Text::from_vec(bytes))
}

/// Numbers between blanks.
fn numbers(alloc: Global, text: &str) -> Result<Listed<u64>> {
    let mut numbers = Vec::new(alloc);
    for number in text.split_whitespace() {
        numbers.push(number.parse::<u64>()?)?;
    }
    Ok(Listed::from_vec(numbers))
}
