// A printed form as it grows.
ghost use Rattle.std.specs.Prelude.{◌≡◌, ◌++◌, ◌<◌, OnOk, IfOk, codes, decimal, string_bytes};
ghost use Rattle.std.specs.List.{flat_map, join_by};
ghost use Rattle.sdb_parse.specs.Printed.{enclosed, name_text, quoted_text, signed_text};

use itoa::Buffer;
use sdb_base::{OutOfMemory, Text};
use std::alloc::Global;
use std::marker::Model;

// A printed form as far as it has come.
#[derive(Debug, Drop)]
pub struct Printer {
    line: String,
}

impl Model for Printer {
    ghost use Rattle.std.specs.Prelude.{List, ℕ, string_bytes};

    ghost Value = { List ℕ };

    ghost view = { λ it. string_bytes it.line };
}

impl Printer {
    pub(crate) fn new(alloc: Global, first: &str) -> Result<Printer, OutOfMemory>
        ensures { IfOk result (λ it. it ≡ first.now) }
    {
        Ok(Printer {
            line: String::from_str(alloc, first)?,
        })
    }

    pub(crate) fn finish(self) -> Text
        ensures { result ≡ self }
    {
        Text::from_string(self.line)
    }

    // Appends text as it is.
    pub(crate) fn plain(&mut self, text: &str) -> Result<(), OutOfMemory>
        ensures { OnOk result (self.new ≡ self.old ++ text.now) }
    {
        self.line.push_str(text)?;
        Ok(())
    }

    // Appends a name in backticks, after a space.
    pub(crate) fn name(&mut self, name: &Text) -> Result<(), OutOfMemory>
        ensures { OnOk result (self.new ≡ self.old ++ name_text name.now) }
    {
        self.signed('`', name)
    }

    // Appends a text in `'`, after a space.
    pub(crate) fn quoted(&mut self, text: &Text) -> Result<(), OutOfMemory>
        ensures { OnOk result (self.new ≡ self.old ++ quoted_text text.now) }
    {
        self.signed('\'', text)
    }

    // Appends a name in backticks.
    pub(crate) fn ticked(&mut self, name: &Text) -> Result<(), OutOfMemory>
        ensures { OnOk result (self.new ≡ self.old ++ enclosed 96 name.now) }
    {
        self.enclosed('`', name.as_str())
    }

    // Appends texts between two signs with `,` between them.
    pub(crate) fn listed(&mut self, sign: char, texts: &[Text]) -> Result<(), OutOfMemory>
        requires { sign < 128 }
        ensures { OnOk result (self.new ≡ self.old ++ join_by (signed_text sign) (codes " ,") texts.now) }
    {
        let Some((first, others)) = texts.split_first() else {
            return Ok(());
        };
        self.signed(sign, first)?;
        self.others(sign, others)
    }

    // Appends texts between two signs, each after a `,`.
    fn others(&mut self, sign: char, texts: &[Text]) -> Result<(), OutOfMemory>
        requires { sign < 128 }
        ensures { OnOk result (self.new ≡ self.old ++ flat_map (λ text. codes " ," ++ signed_text sign text) texts.now) }
    {
        for text in texts {
            self.plain(" ,")?;
            self.signed(sign, text)?;
        }
        Ok(())
    }

    // Appends a text between two signs, after a space.
    fn signed(&mut self, sign: char, text: &Text) -> Result<(), OutOfMemory>
        requires { sign < 128 }
        ensures { OnOk result (self.new ≡ self.old ++ signed_text sign text.now) }
    {
        self.plain(" ")?;
        self.enclosed(sign, text.as_str())
    }

    // Appends a number in decimal.
    pub(crate) fn number(&mut self, number: u16) -> Result<(), OutOfMemory>
        ensures { OnOk result (self.new ≡ self.old ++ decimal number) }
    {
        let mut buffer = Buffer::new();
        self.plain(buffer.format(number))
    }

    // Appends a text between two signs, each sign inside doubled.
    fn enclosed(&mut self, sign: char, text: &str) -> Result<(), OutOfMemory>
        requires { sign < 128 }
        ensures { OnOk result (self.new ≡ self.old ++ enclosed sign text.now) }
    {
        self.line.push(sign)?;
        let mut left = text;
        'part: loop {
            match left.split_once(sign) {
                None => break,
                Some((before, after)) => {
                    self.line.push_str(before)?;
                    self.line.push(sign)?;
                    self.line.push(sign)?;
                    left = after;
                }
            }
        }
        self.line.push_str(left)?;
        self.line.push(sign)?;
        Ok(())
    }
}
