//! A case: what a run is given.

use aft_keeper::Fail;
use anyhow::{Result, bail, ensure};
use std::alloc::Global;

/// What a run is given. Its files are named `script` and `order`, and its clock tells 1000.
#[derive(Drop)]
pub struct Case {
    alloc: Global,
    pub name: String,
    pub words: Vec<String>,
    pub script: Vec<u8>,
    pub order: Vec<u8>,
    /// Under this name the store holds no bytes before the run.
    pub stored: Option<String>,
    /// The store shows these bytes under this name, whatever is put.
    pub planted: Option<(String, Vec<u8>)>,
    pub store_fails: Vec<Fail>,
    pub read_fails: Vec<u64>,
    pub write_fails: Vec<u64>,
}

impl Case {
    /// A case with no name, which isn't run.
    pub fn new(alloc: Global) -> Case {
        Case {
            alloc,
            name: String::new(alloc),
            words: Vec::new(alloc),
            script: Vec::new(alloc),
            order: Vec::new(alloc),
            stored: None,
            planted: None,
            store_fails: Vec::new(alloc),
            read_fails: Vec::new(alloc),
            write_fails: Vec::new(alloc),
        }
    }

    /// A case with its name, and nothing else yet.
    pub fn named(alloc: Global, name: &str) -> Result<Case> {
        let mut case = Case::new(alloc);
        case.name.push_str(name)?;
        Ok(case)
    }

    /// Adds what a line of the table says: a word and what follows it. An empty line and one that begins with `#`
    /// say nothing.
    pub fn add(&mut self, line: &str) -> Result<()> {
        if line.is_empty() || line.starts_with('#') {
            return Ok(());
        }
        let (what, rest) = line.split_once(' ').unwrap_or((line, ""));
        match what {
            "words" => self.add_words(rest),
            "script" => {
                self.add_script(rest)?;
                Ok(self.script.push(b'\n')?)
            }
            "unended" => self.add_script(rest),
            "repeat" => self.repeat(rest),
            "order" => unescape(&mut self.order, rest),
            "stored" => {
                self.stored = Some(String::from_str(self.alloc, rest)?);
                Ok(())
            }
            "planted" => self.plant(rest),
            "store-fails" => self.fail(rest),
            "read-fails" => Ok(self.read_fails.push(rest.parse::<u64>()?)?),
            "write-fails" => Ok(self.write_fails.push(rest.parse::<u64>()?)?),
            _ => bail!("no such line: {line}"),
        }
    }

    /// Words of the command line, each after one space. `''` is the empty word.
    fn add_words(&mut self, rest: &str) -> Result<()> {
        for word in rest.split(' ') {
            let word = if word == "''" { "" } else { word };
            self.words.push(String::from_str(self.alloc, word)?)?;
        }
        Ok(())
    }

    fn add_script(&mut self, rest: &str) -> Result<()> {
        unescape(&mut self.script, rest)
    }

    /// `N TEXT`: the text so many times, with no LF.
    fn repeat(&mut self, rest: &str) -> Result<()> {
        let Some((times, text)) = rest.split_once(' ') else {
            bail!("how often?");
        };
        for _ in 0..times.parse::<u32>()? {
            unescape(&mut self.script, text)?;
        }
        Ok(())
    }

    /// `NAME HEX`: what the store shows.
    fn plant(&mut self, rest: &str) -> Result<()> {
        let (name, digits) = rest.split_once(' ').unwrap_or((rest, ""));
        let name = String::from_str(self.alloc, name)?;
        let bytes = hex::decode(self.alloc, digits)?;
        self.planted = Some((name, bytes));
        Ok(())
    }

    /// `N before` or `N after`: the call of this number fails, before or after it took effect.
    fn fail(&mut self, rest: &str) -> Result<()> {
        let Some((call, when)) = rest.split_once(' ') else {
            bail!("before or after?");
        };
        ensure!(when == "before" || when == "after", "before or after?");
        let call = call.parse::<u64>()?;
        let after = when == "after";
        self.store_fails.push(Fail { call, after })?;
        Ok(())
    }
}

/// Adds a text, in which `\n`, `\r`, `\t`, `\s`, `\d` and `\h` stand for LF, CR, a tab, a space, DEL and a byte above
/// 127.
fn unescape(out: &mut Vec<u8>, text: &str) -> Result<()> {
    let mut escaped = false;
    for b in text.bytes() {
        if !escaped && b == b'\\' {
            escaped = true;
            continue;
        }
        out.push(if escaped { escape(b)? } else { b })?;
        escaped = false;
    }
    Ok(())
}

/// The byte that stands behind a backslash.
fn escape(b: u8) -> Result<u8> {
    match b {
        b'n' => Ok(b'\n'),
        b'r' => Ok(b'\r'),
        b't' => Ok(b'\t'),
        b's' => Ok(b' '),
        b'd' => Ok(127),
        b'h' => Ok(233),
        _ => bail!("no such escape"),
    }
}
