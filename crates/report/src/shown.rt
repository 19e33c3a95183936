// Bytes of a file as text.
use source::refusal::Refusal;
use source::source::Source;
use source::span::Span;
use std::fmt;

// Prints bytes as they are where they are printable, and others as `\x00`.
#[derive(Clone, Copy)]
pub struct Shown<'a>(pub &'a [u8]);

fn put_byte<W: fmt::Write>(f: &mut fmt::Formatter<W>, b: u8) -> fmt::Result {
    if b.is_ascii_graphic() || b == b' ' {
        f.write_char(char::from(b))
    } else {
        write!(f, "\\x{b:02x}")
    }
}

impl<'a> fmt::Display for Shown<'a> {
    fn fmt<W: fmt::Write>(&self, f: &mut fmt::Formatter<W>) -> fmt::Result {
        for b in self.0 {
            put_byte(f, *b)?;
        }
        Ok(())
    }
}

// A run of a source, printed likewise.
#[derive(Clone, Copy)]
pub struct ShownRun<'a, S> {
    pub source: &'a S,
    pub run: Span,
}

impl<'a, S: Source> fmt::Display for ShownRun<'a, S> {
    fn fmt<W: fmt::Write>(&self, f: &mut fmt::Formatter<W>) -> fmt::Result {
        let Span { start, len } = self.run;
        for b in (start..start.saturating_add(len)).map_while(|p| self.source.byte(p)) {
            put_byte(f, b)?;
        }
        Ok(())
    }
}

// A name by where it stands, or `?` where it cannot be read.
#[derive(Clone, Copy)]
pub struct ShownName<'a, S> {
    pub source: &'a S,
    pub name: Result<Span, Refusal>,
}

impl<'a, S: Source> fmt::Display for ShownName<'a, S> {
    fn fmt<W: fmt::Write>(&self, f: &mut fmt::Formatter<W>) -> fmt::Result {
        let source = self.source;
        match self.name {
            Ok(run) => ShownRun { source, run }.fmt(f),
            Err(_) => f.write_char('?'),
        }
    }
}
