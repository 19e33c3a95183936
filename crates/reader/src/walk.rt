// The walk over the load commands: opened, stepped, finished.
ghost use Rattle.std.specs.Prelude.{◌≡◌, true, false, Ok, Err};
ghost use Rattle.source.specs.declared.refusal.Reason.TheVariants.{FinishTooEarly};
ghost use Rattle.source.specs.Refusals.{refusal};
ghost use Rattle.list.specs.Contents.{contents_of};
ghost use Rattle.reader.specs.Layouts.{NextSegmentIsListedAsItsOnlyLayout};
ghost use Rattle.reader.specs.Maps.{map_begun};
ghost use Rattle.reader.specs.Walks.{opened, step_left, step_of};

use crate::reading::Reading;
use crate::state::{Damage, MapState, State, StepAnswer};
use crate::treat::NextCommand;
use fields::header::{MachHeader, endian_of};
use fields::number::Fields;
use fields::width::Width;
use list::list::List;
use sections::record::{SectionRecord, SegmentRecord};
use source::refusal::{Reason, Refusal};
use source::source::Source;
use stabs::cursor::MapCursor;

// A walk that is not finished. Only `open` makes one, and it is not copied.
#[derive(Drop)]
pub struct Walk<S, W> {
    source: S,
    width: W,
    state: State,
}

// The state at the first command.
fn opened_state<S: Source, W: Width>(source: &S) -> Result<State, Refusal>
    ensures { result ≡ opened W.Width.wide (S.Source.bytes source.now) }
{
    let size = MachHeader::size::<W>();
    if source.len() < size {
        return Err(Reason::ShortHeader.at(0));
    }
    let magic = Fields::big_endian(source).u32_at(0).unwrap_or(0);
    let endian = endian_of::<W>(magic).ok_or(Reason::WrongMagic.at(0))?;
    let fields = Fields { source, endian };
    let header = MachHeader::read::<S, W>(fields).ok_or(Reason::ShortHeader.at(0))?;
    Ok(State {
        endian,
        filetype: header.filetype,
        place: size,
        left: header.ncmds,
        table_end: size + u64::from(header.sizeofcmds),
        over: false,
        symtab: None,
    })
}

// A walk over the commands of a library at one width. Refused when the source is shorter than a
// header, or begins with another magic; the source is then handed back.
pub fn open<S: Source, W: Width + Drop>(source: S, width: W) -> Result<Walk<S, W>, (Refusal, S)>
    ensures { elim result [ Ok w ↦ (Ok w.state ≡ opened W.Width.wide (S.Source.bytes source)) × (w.source ≡ source) | Err e ↦ (Err e.0 ≡ opened W.Width.wide (S.Source.bytes source)) × (e.1 ≡ source) ] }
{
    // The source goes into either answer, which two closures could not share.
    match opened_state::<S, W>(&source) {
        Ok(state) => Ok(Walk {
            source,
            width,
            state,
        }),
        Err(e) => Err((e, source)),
    }
}

impl<S: Source, W: Width> Walk<S, W> {
    // Treats one command. Refused, nothing changes, and the same step gives the same refusal again.
    pub fn step(
        &mut self,
        segments: &mut List<SegmentRecord>,
        sections: &mut List<SectionRecord>,
    ) -> Result<StepAnswer, Refusal>
        ensures step { step_left result self.new.state segments.new sections.new ≡ step_of W.Width.wide (S.Source.bytes self.old.source) self.old.state (contents_of segments.old) (contents_of sections.old) }
        ensures source { self.new.source ≡ self.old.source }
        ensures segments_owner { segments.new.slots.ghost_name ≡ segments.old.slots.ghost_name }
        ensures sections_owner { sections.new.slots.ghost_name ≡ sections.old.slots.ghost_name }
        ensures layout { NextSegmentIsListedAsItsOnlyLayout W.Width.wide (S.Source.bytes self.old.source) self.old.state (contents_of segments.old) (contents_of sections.old) }
    {
        match self.state.next_command(&self.source) {
            Ok(Some(command)) => {
                let size = u64::from(command.cmdsize);
                let next = NextCommand {
                    source: &self.source,
                    state: &self.state,
                    command,
                };
                let (answer, symtab) = next.take::<W>(segments, sections)?;
                // In place: a state is as long as many commands, and most steps change three words of it.
                self.state.place += size;
                self.state.left -= 1;
                self.state.symtab = symtab;
                Ok(answer)
            }
            Ok(None) => {
                self.state.over = true;
                Ok(StepAnswer::End)
            }
            Err(Damage) => {
                self.state.over = true;
                Ok(StepAnswer::Broken)
            }
        }
    }

    // The reading of a walk that has come to the end, or to damage. Any other walk is handed back.
    pub fn finish(self) -> Result<Reading<S, W>, (Refusal, Walk<S, W>)>
        ensures { elim result [ Ok f ↦ (self.state.over ≡ true) × (f.source ≡ self.source) × (f.state ≡ self.state) × (f.map ≡ map_begun) | Err e ↦ (self.state.over ≡ false) × (e.0 ≡ refusal FinishTooEarly self.state.place) × (e.1 ≡ self) ] }
    {
        if !self.state.over {
            return Err((Reason::FinishTooEarly.at(self.state.place), self));
        }
        let Walk {
            source,
            width,
            state,
        } = self;
        Ok(Reading {
            source,
            width,
            state,
            map: MapState {
                passed: 0,
                cursor: MapCursor::new(),
            },
        })
    }
}
