// The cursor of the object map.
ghost use Rattle.std.specs.Prelude.{◌≡◌};
ghost use Rattle.stabs.specs.Cursors.{begun, told_if, left_if};

use crate::map::MapEntry;
use crate::stab::Stab;
use source::span::Span;

// A function that was opened: its name and address.
#[derive(Clone, Copy, PartialEq, Eq, Debug)]
pub struct Function {
    pub name: Span,
    pub address: u64,
}

// The function that is open, and the number of the current object file.
#[derive(Clone, Copy, PartialEq, Eq, Debug)]
pub struct MapCursor {
    pending: Option<Function>,
    current: Option<u64>,
}

// What a stab adds to the map: an object file of a name, or an entry.
#[derive(Clone, Copy, PartialEq, Eq, Debug)]
pub enum Addition {
    File(Span),
    Entry(MapEntry),
}

impl MapCursor {
    // Before the first symbol: no function is open, and no file is current.
    pub fn new() -> MapCursor
        ensures { result ≡ begun }
    {
        MapCursor {
            pending: None,
            current: None,
        }
    }

    // Goes past a symbol, by the stab that it is, where so many files are listed before it. One that
    // means nothing to the map adds nothing. A function that is open stays so when a file ends; a
    // closing spends it, whether or not a file is current. The cursor's two parts and the stab are
    // matched together, in place, which is the form that the design names.
    pub fn advance(&mut self, stab: Option<Stab>, files: u64) -> Option<Addition>
        ensures answer { result ≡ told_if self.old stab }
        ensures after { self.new ≡ left_if self.old stab files }
    {
        match (self.pending, self.current, stab) {
            (_, _, Some(Stab::Source | Stab::Object(None))) => {
                self.current = None;
                None
            }
            (_, _, Some(Stab::Object(Some(name)))) => {
                self.current = Some(files);
                Some(Addition::File(name))
            }
            (_, _, Some(Stab::Opening(name, address))) => {
                self.pending = Some(Function { name, address });
                None
            }
            (pending, current, Some(Stab::Closing(size))) => {
                self.pending = None;
                pending.zip(current).map(|(function, file)| {
                    Addition::Entry(MapEntry {
                        address: function.address,
                        size,
                        name: function.name,
                        file,
                    })
                })
            }
            (_, current, Some(Stab::Static(name, address))) => current.map(|file| {
                Addition::Entry(MapEntry {
                    address,
                    size: 0,
                    name,
                    file,
                })
            }),
            (_, _, None) => None,
        }
    }
}
