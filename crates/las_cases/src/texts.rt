// Texts by their names, and what a text says where names stand in it.
use anyhow::{Context, Result, ensure};
use std::alloc::Global;

/// A name and the text that it stands for.
#[derive(Drop)]
pub(crate) struct Named {
    pub(crate) name: String,
    pub(crate) text: String,
}

impl Named {
    pub(crate) fn new(alloc: Global, name: &str, text: &str) -> Result<Named> {
        let name = String::from_str(alloc, name)?;
        let text = String::from_str(alloc, text)?;
        Ok(Named { name, text })
    }

    /// Parses `NAME = TEXT`, with this for the `=`.
    pub(crate) fn parse(alloc: Global, line: &str, between: char) -> Result<Named> {
        let (name, text) = line.split_once(between).context("a name and a text")?;
        Named::new(alloc, name.trim(), text.trim())
    }
}

/// The text of a name. Of two the later counts.
pub(crate) fn text_of<'a>(texts: &'a [Named], name: &str) -> Result<&'a str> {
    let found = texts.iter().rev().find(|named| named.name.as_str() == name);
    let named = found.context(format_args!("nothing is named {name}"))?;
    Ok(named.text.as_str())
}

/// The text with each `<NAME>` in it replaced by the text of that name, `<29 NAME>` by 29 times that text, and
/// `<pad 100>` by blanks up to 100 bytes. Texts stand in one another less than `depth` deep.
pub(crate) fn replaced(alloc: Global, texts: &[Named], text: &str, depth: u8) -> Result<String> {
    ensure!(depth > 0, "texts stand too deep in one another");
    let (front, calls) = text.split_once('<').unwrap_or((text, ""));
    let mut all = String::from_str(alloc, front)?;
    for piece in calls.split_terminator('<') {
        let (call, rest) = piece.split_once('>').context("a < without its >")?;
        let (count, name) = call.split_once(' ').unwrap_or(("1", call));
        if count == "pad" {
            for _ in all.len()..name.parse::<usize>().context("a length")? {
                all.push(' ')?;
            }
        } else {
            let text = replaced(alloc, texts, text_of(texts, name)?, depth - 1)?;
            for _ in 0..count.parse::<u32>().context("a count")? {
                all.push_str(&text)?;
            }
        }
        all.push_str(rest)?;
    }
    Ok(all)
}

/// The lines of a report, with `N` for each number of lessons that is not 0.
pub(crate) fn without_counts(alloc: Global, report: &str) -> Result<String> {
    let mut all = String::new(alloc);
    for line in report.split_inclusive('\n') {
        match line.split_once(" refuted ") {
            Some((front, count)) if count != "0\n" => {
                all.push_str(front)?;
                all.push_str(" refuted N\n")?;
            }
            _ => all.push_str(line)?,
        }
    }
    Ok(all)
}
