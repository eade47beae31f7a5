// The lines of a script, and what each does.
use crate::texts::{Named, replaced, text_of, without_counts};
use anyhow::{Context, Result, bail, ensure};
use las_io::{MemShelf, MemSink, MemSource, Shelf, is_lawful_name};
use las_top::run_las;
use std::alloc::Global;
use std::fmt::Write;

/// What a run reads and writes.
#[derive(Clone, Copy, PartialEq, Eq, Debug)]
enum Object {
    Source,
    Out,
    Err,
    Shelf,
}

/// What a run leaves: what stands on out, the shelf, and how often each object was called.
#[derive(Drop)]
struct Played {
    out: String,
    shelf: MemShelf,
    source_calls: u64,
    out_calls: u64,
    err_calls: u64,
    shelf_calls: u64,
}

/// A script, as far as it has been read.
#[derive(Drop)]
pub(crate) struct Script {
    alloc: Global,
    texts: Vec<Named>,
    /// Whether the lines of the last text are being read.
    in_text: bool,
    /// How many texts stand for all cases, once one has begun.
    common: Option<usize>,
    source: String,
    /// The files on the shelf. Of two with one name the later counts.
    files: Vec<Named>,
    /// The names of files that runs leave on the shelf, beside those that their words name.
    left: Vec<String>,
    /// How many bytes a call moves at most.
    most: usize,
    /// Other texts of names, each of which is a fault, from the one that is told first on.
    faults: Vec<String>,
    /// The calls that fail in the next run, by their numbers from 0.
    fails: Vec<(Object, u64)>,
    shows_calls: bool,
    /// What comes on out in the next run is not printed.
    hides_out: bool,
    /// Numbers of lessons are printed as `N` in the next run, but for 0.
    hides_counts: bool,
    last_out: String,
}

impl Script {
    pub(crate) fn new(alloc: Global, texts: Vec<Named>, common: Option<usize>) -> Script {
        Script {
            alloc,
            texts,
            in_text: false,
            common,
            source: String::new(alloc),
            files: Vec::new(alloc),
            left: Vec::new(alloc),
            most: 4096,
            faults: Vec::new(alloc),
            fails: Vec::new(alloc),
            shows_calls: false,
            hides_out: false,
            hides_counts: false,
            last_out: String::new(alloc),
        }
    }

    /// Does what the next line says, and puts what is to be printed to the end of `said`.
    pub(crate) fn read_line(&mut self, line: &str, said: &mut String) -> Result<()> {
        let (word, rest) = line.split_once(' ').unwrap_or((line, ""));
        match word {
            _ if self.in_text => self.read_text(line)?,
            "" | "#" => {}
            "text" => {
                self.in_text = true;
                self.texts.push(Named::new(self.alloc, rest, "")?)?;
            }
            "let" => self.texts.push(Named::parse(self.alloc, rest, '=')?)?,
            "case" => {
                self.begin_case();
                writeln!(said, "\n{line}")?;
            }
            "source" => self.source = String::from_str(self.alloc, rest)?,
            "file" => self.files.push(Named::parse(self.alloc, rest, ' ')?)?,
            "leaves" => self.left.push(String::from_str(self.alloc, rest)?)?,
            "most" => self.most = rest.parse::<usize>().context("a number of bytes")?,
            "fails" => self.add_fails(rest)?,
            "calls" => self.shows_calls = true,
            "hide" => self.hides_out = true,
            "some" => self.hides_counts = true,
            "run" => self.run(rest, said)?,
            "fronts" => self.run_fronts(rest, said)?,
            "each" => self.run_each(rest, said)?,
            "fault" => self.faults.push(String::from_str(self.alloc, rest)?)?,
            "pairs" => self.run_pairs(rest, said)?,
            "keep" => self
                .texts
                .push(Named::new(self.alloc, rest, &self.last_out)?)?,
            "fetch" => self
                .texts
                .push(Named::new(self.alloc, rest, text_of(&self.files, rest)?)?)?,
            "show" => tell(said, rest, &self.replaced(text_of(&self.files, rest)?)?)?,
            _ => bail!("not understood: {line}"),
        }
        Ok(())
    }

    fn read_text(&mut self, line: &str) -> Result<()> {
        self.in_text = line != "end";
        if let Some(last) = self.texts.last_mut()
            && line != "end"
        {
            writeln!(last.text, "{line}")?;
        }
        Ok(())
    }

    fn replaced(&self, text: &str) -> Result<String> {
        replaced(self.alloc, &self.texts, text, 16)
    }

    // Of what was set, those texts stay that were named before the first case.
    fn begin_case(&mut self) {
        let common = self.common.unwrap_or(self.texts.len());
        let mut texts = std::mem::replace(&mut self.texts, Vec::new(self.alloc));
        texts.truncate(common);
        *self = Script::new(self.alloc, texts, Some(common));
    }

    // `OBJECT NUMBER NUMBER ..`
    fn add_fails(&mut self, line: &str) -> Result<()> {
        let (name, numbers) = line.split_once(' ').context("an object and numbers")?;
        let object = object_of(name)?;
        for number in numbers.split_whitespace() {
            self.fails
                .push((object, number.parse::<u64>().context("a number")?))?;
        }
        Ok(())
    }

    // The calls of an object that fail, counted after `before` others.
    fn fails_of(&self, object: Object, before: u64) -> Result<Vec<u64>> {
        let fails = self.fails.iter().filter(|fail| fail.0 == object);
        let numbers = fails.map(|fail| fail.1.saturating_add(before));
        Ok(numbers.collect::<Vec<u64>>(self.alloc)?)
    }

    // One run of `WORDS` or `WORDS with NAME = TEXT`.
    fn run(&mut self, line: &str, said: &mut String) -> Result<()> {
        let count = self.texts.len();
        let (words, equation) = line.split_once(" with ").unwrap_or((line, "="));
        self.texts.push(Named::parse(self.alloc, equation, '=')?)?;
        let source = self.replaced(&self.source)?;
        write!(said, "{line}")?;
        let played = self.play(words, source.as_bytes(), said)?;
        for name in words.split_whitespace() {
            self.leave(&played.shelf, name)?;
        }
        let names = std::mem::replace(&mut self.left, Vec::new(self.alloc));
        for name in &names {
            self.leave(&played.shelf, name)?;
        }
        self.left = names;
        self.last_out = played.out;
        self.texts.truncate(count);
        self.fails.clear();
        self.hides_out = false;
        self.hides_counts = false;
        Ok(())
    }

    // The file of this name stays as it stands on the shelf.
    fn leave(&mut self, shelf: &MemShelf, name: &str) -> Result<()> {
        if let Some(bytes) = shelf.file(name) {
            let text = str::from_utf8(bytes).context("a file is not UTF-8")?;
            self.files.push(Named::new(self.alloc, name, text)?)?;
        }
        Ok(())
    }

    // A run over each front of the source. Those are told that do not come out as the one before.
    fn run_fronts(&self, words: &str, said: &mut String) -> Result<()> {
        let source = self.replaced(&self.source)?.into_bytes();
        let mut last = String::new(self.alloc);
        for count in 0..=source.len() {
            let mut text = String::new(self.alloc);
            let _ = self.play(words, &source[..count], &mut text)?;
            if text != last {
                write!(said, "{words}, from {count} bytes on{text}")?;
                last = text;
            }
        }
        Ok(())
    }

    // `OBJECT WORDS`: a run for each call of the object that fails, until none does. Those are told that do not come out
    // as the one before. No call comes behind one that fails.
    fn run_each(&mut self, line: &str, said: &mut String) -> Result<()> {
        let (name, words) = line.split_once(' ').context("an object and words")?;
        let object = object_of(name)?;
        let source = self.replaced(&self.source)?;
        let mut last = String::new(self.alloc);
        for call in 0..100_000u64 {
            self.fails.push((object, call))?;
            let mut text = String::new(self.alloc);
            let played = self.play(words, source.as_bytes(), &mut text)?;
            self.fails.clear();
            let calls = played.calls(object);
            ensure!(
                calls <= call + 1,
                "{name} is called behind call {call}, which fails"
            );
            if calls <= call {
                self.hides_out = false;
                write!(said, "{words}, where no call of {name} fails{text}")?;
                return Ok(());
            }
            if text != last {
                write!(
                    said,
                    "{words}, where {name} fails, from call {call} on{text}"
                )?;
                last = text;
            }
        }
        bail!("{name} is called again and again");
    }

    // A run with each fault alone, and one with each two. Of these last only those are told that do not come out as
    // with the first of the two.
    fn run_pairs(&mut self, words: &str, said: &mut String) -> Result<()> {
        let faults = std::mem::replace(&mut self.faults, Vec::new(self.alloc));
        for (place, first) in faults.iter().enumerate() {
            let alone = self.play_faulty(words, first, first)?;
            write!(said, "{words} with {first}{alone}")?;
            for second in faults.iter().skip(place) {
                let both = self.play_faulty(words, first, second)?;
                if both != alone {
                    write!(said, "{words} with {first} and {second}{both}")?;
                }
            }
        }
        Ok(())
    }

    // What comes of a run with two faults. Of two texts of one name the first one's counts.
    fn play_faulty(&mut self, words: &str, first: &str, second: &str) -> Result<String> {
        let count = self.texts.len();
        self.texts.push(Named::parse(self.alloc, second, '=')?)?;
        self.texts.push(Named::parse(self.alloc, first, '=')?)?;
        let source = self.replaced(&self.source)?;
        let mut text = String::new(self.alloc);
        let _ = self.play(words, source.as_bytes(), &mut text)?;
        self.texts.truncate(count);
        Ok(text)
    }

    // The words of a run, each with what stands for it.
    fn words(&self, words: &str) -> Result<Vec<String>> {
        let mut all = Vec::new(self.alloc);
        for word in words.split_whitespace() {
            all.push(self.replaced(word)?)?;
        }
        Ok(all)
    }

    fn sink(&self, object: Object) -> Result<MemSink> {
        let fails = self.fails_of(object, 0)?;
        Ok(MemSink::new(self.alloc, self.most.max(1), fails))
    }

    // How many calls lay the files onto the shelf.
    fn laying(&self) -> u64 {
        3u64.saturating_mul(self.files.len() as u64)
    }

    fn shelf(&self) -> Result<MemShelf> {
        let fails = self.fails_of(Object::Shelf, self.laying())?;
        let mut shelf = MemShelf::new(self.alloc, Vec::new(self.alloc), fails);
        for file in &self.files {
            lay(&mut shelf, &file.name, &self.replaced(&file.text)?)?;
        }
        Ok(shelf)
    }

    // Runs the words over this source, and tells what came of it.
    fn play(&self, words: &str, source: &[u8], said: &mut String) -> Result<Played> {
        let words = self.words(words)?;
        let fails = self.fails_of(Object::Source, 0)?;
        let mut src = MemSource::new(source.to_vec(self.alloc)?, self.most.max(1), fails);
        let mut out = self.sink(Object::Out)?;
        let mut err = self.sink(Object::Err)?;
        let mut shelf = self.shelf()?;
        ensure!(!shelf.begun(), "a file is begun");
        let status = run_las(self.alloc, &words, &mut src, &mut out, &mut err, &mut shelf).number();
        writeln!(said, ": {status}")?;
        if !self.hides_out {
            tell(said, "out", str::from_utf8(out.bytes())?)?;
        }
        let report = str::from_utf8(err.bytes())?;
        if self.hides_counts {
            tell(said, "err", &without_counts(self.alloc, report)?)?;
        } else {
            tell(said, "err", report)?;
        }
        let played = Played {
            out: String::from_str(self.alloc, str::from_utf8(out.bytes())?)?,
            source_calls: src.calls(),
            out_calls: out.calls(),
            err_calls: err.calls(),
            shelf_calls: shelf.calls().saturating_sub(self.laying()),
            shelf,
        };
        if self.shows_calls {
            played.tell_calls(said)?;
        }
        Ok(played)
    }
}

impl Played {
    fn calls(&self, object: Object) -> u64 {
        match object {
            Object::Source => self.source_calls,
            Object::Out => self.out_calls,
            Object::Err => self.err_calls,
            Object::Shelf => self.shelf_calls,
        }
    }

    fn tell_calls(&self, said: &mut String) -> Result<()> {
        let (source, out) = (self.source_calls, self.out_calls);
        let (err, shelf) = (self.err_calls, self.shelf_calls);
        writeln!(
            said,
            "  calls: source {source}, out {out}, err {err}, shelf {shelf}"
        )?;
        Ok(())
    }
}

fn object_of(name: &str) -> Result<Object> {
    Ok(match name {
        "source" => Object::Source,
        "out" => Object::Out,
        "err" => Object::Err,
        "shelf" => Object::Shelf,
        _ => bail!("no object is named {name}"),
    })
}

// Lays a file, in three calls, onto a shelf whose calls do not fail yet.
fn lay(shelf: &mut MemShelf, name: &str, text: &str) -> Result<()> {
    let is_lawful = is_lawful_name(name) && !shelf.begun();
    ensure!(is_lawful, "no file may be named {name}");
    let is_laid = shelf.begin(name).is_ok()
        && shelf.append(text.as_bytes()).is_ok()
        && shelf.finish().is_ok();
    ensure!(is_laid, "the file {name} cannot be laid");
    Ok(())
}

// Each line of a text, after a label; one without its end is followed by ` ..`.
fn tell(said: &mut String, label: &str, text: &str) -> Result<()> {
    for line in text.split_inclusive('\n') {
        write!(said, "  {label}: {line}")?;
    }
    if !said.ends_with('\n') {
        writeln!(said, " ..")?;
    }
    Ok(())
}
