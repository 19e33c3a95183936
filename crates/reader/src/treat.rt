// What the next command is, what it asks for, and what comes of it.
ghost use Rattle.std.specs.Prelude.{◌≡◌, ◌+◌, ◌^◌, ◌<◌, ◌≤◌, length, IfOk, IfSome, Ok, Err, Some, None};
ghost use Rattle.list.specs.Contents.{contents_of};
ghost use Rattle.reader.specs.Walks.{left_by, taken_of};
ghost use Rattle.reader.specs.Commands.{next_of, read_only_in, plan_of, symtab_of, deed_of};

use crate::lists::list_segment;
use crate::state::{Damage, Deed, SegmentPlan, State, StepAnswer};
use fields::load_command::{LoadCommand, SymtabCommand};
use fields::number::Fields;
use fields::section::Section;
use fields::segment::Segment;
use fields::symbol::Nlist;
use fields::width::Width;
use list::list::List;
use sections::offset::SectionOffsets;
use sections::record::{SectionRecord, SectionTable, SegmentRecord};
use source::refusal::{Reason, Refusal};
use source::source::Source;

pub const LC_SEGMENT: u32 = 0x1;

pub const LC_SYMTAB: u32 = 0x2;

pub const LC_SEGMENT_64: u32 = 0x19;

pub const MH_OBJECT: u32 = 0x1;

pub const VM_PROT_WRITE: u32 = 0x2;

pub const SG_READ_ONLY: u32 = 0x10;

// The command that a step comes to, where it stands: it lies inside the source, and is counted.
#[derive(Drop)]
pub(crate) struct NextCommand<'a, S: Source> {
    pub(crate) source: &'a S,
    pub(crate) state: &'a State,
    pub(crate) command: LoadCommand,
    ghost ends_inside: { state.now.place + command.cmdsize ≤ length (S.Source.bytes source.now) },
    ghost has_end: { state.now.place + command.cmdsize < 2 ^ 64 },
    ghost counted: { 1 ≤ state.now.left },
}

impl State {
    // The command that a step comes to, if any is left.
    #[tactic(auto, unfolding(crate::specs::Commands::next_of))]
    pub(crate) fn next_command<S: Source>(&self, source: &S) -> Result<Option<LoadCommand>, Damage>
        ensures value { result ≡ next_of (S.Source.bytes source.now) self.now }
        ensures ends_inside { IfOk result (λ o. IfSome o (λ c. self.now.place + c.cmdsize ≤ length (S.Source.bytes source.now))) }
        ensures has_end { IfOk result (λ o. IfSome o (λ c. self.now.place + c.cmdsize < 2 ^ 64)) }
        ensures counted { IfOk result (λ o. IfSome o (λ c. 1 ≤ self.now.left)) }
    {
        if self.over {
            return Ok(None);
        }
        if self.table_end > source.len() {
            return Err(Damage);
        }
        if self.left == 0 {
            return Ok(None);
        }
        let rest = self.table_end.saturating_sub(self.place);
        if rest < LoadCommand::SIZE {
            return Err(Damage);
        }
        let command = LoadCommand::read(self.fields(source), self.place).ok_or(Damage)?;
        if u64::from(command.cmdsize) < LoadCommand::SIZE || u64::from(command.cmdsize) > rest {
            return Err(Damage);
        }
        Ok(Some(command))
    }

    // What a segment says of writing; in an object file, nothing.
    fn read_only(&self, segment: Segment) -> Option<bool>
        ensures { result ≡ read_only_in self.now.filetype segment }
    {
        if self.filetype == MH_OBJECT {
            return None;
        }
        let written = segment.initprot & VM_PROT_WRITE != 0;
        Some(!written || segment.flags & SG_READ_ONLY != 0)
    }
}

impl<'a, S: Source> NextCommand<'a, S> {
    // Does what it asks for: what a step answers, and where the symbols are then known to be. Refused, it
    // changes nothing.
    pub(crate) fn take<W: Width>(
        &self,
        segments: &mut List<SegmentRecord>,
        sections: &mut List<SectionRecord>,
    ) -> Result<(StepAnswer, Option<SymtabCommand>), Refusal>
        ensures taken { left_by result self.now.state.now self.now.command segments.new sections.new ≡ taken_of W.Width.wide (S.Source.bytes self.now.source.now) self.now.state.now self.now.command (contents_of segments.old) (contents_of sections.old) }
        ensures segments_owner { segments.new.slots.ghost_name ≡ segments.old.slots.ghost_name }
        ensures sections_owner { sections.new.slots.ghost_name ≡ sections.old.slots.ghost_name }
    {
        let mut symtab = self.state.symtab;
        let answer = match self.deed::<W>()? {
            Some(Deed::List(plan)) => {
                list_segment::<S, W>(self.source, plan, segments, sections)?
            }
            Some(Deed::Remember(found)) => {
                symtab = Some(found);
                StepAnswer::Symbols
            }
            None => StepAnswer::Passed,
        };
        Ok((answer, symtab))
    }

    // What it asks for, if anything.
    #[tactic(auto, unfolding(crate::specs::Commands::deed_of))]
    fn deed<W: Width>(&self) -> Result<Option<Deed>, Refusal>
        ensures { result ≡ deed_of W.Width.wide (S.Source.bytes self.now.source.now) self.now.state.now self.now.command }
    {
        if self.command.cmd == W::either(LC_SEGMENT, LC_SEGMENT_64) {
            Ok(Some(Deed::List(self.segment_plan::<W>()?)))
        } else if self.command.cmd == LC_SYMTAB {
            Ok(Some(Deed::Remember(self.symtab::<W>()?)))
        } else {
            Ok(None)
        }
    }

    // The source, in the byte order of its header.
    fn fields(&self) -> Fields<S>
        ensures source { result.source.now ≡ self.now.source.now }
        ensures endian { result.endian ≡ self.now.state.now.endian }
    {
        self.state.fields(self.source)
    }

    // The segment of a native segment command, with its sections seen to end inside it.
    #[tactic(auto, unfolding(crate::specs::Commands::plan_of))]
    fn segment_plan<W: Width>(&self) -> Result<SegmentPlan, Refusal>
        ensures { result ≡ plan_of W.Width.wide (S.Source.bytes self.now.source.now) self.now.state.now self.now.command }
    {
        let place = self.state.place;
        let short = Reason::ShortCommand.at(place);
        let size = Segment::size::<W>();
        let cmdsize = u64::from(self.command.cmdsize);
        if cmdsize < size {
            return Err(short);
        }
        let segment = Segment::read::<S, W>(self.fields(), place).ok_or(short)?;
        if u64::from(segment.nsects) * Section::size::<W>() > cmdsize - size {
            return Err(Reason::SectionsPastCommand.at(place));
        }
        let table = SectionTable {
            command: place,
            place: place + size,
            count: segment.nsects,
            endian: self.state.endian,
            read_only: self.state.read_only(segment),
        };
        let offsets = SectionOffsets::new(segment.fileoff, segment.filesize);
        let after = table.check_sections::<S, W>(self.source, offsets)?;
        Ok(SegmentPlan {
            table,
            offsets,
            wrapped: after.wrapped(),
        })
    }

    // Where a symtab command says that the symbols are.
    #[tactic(auto, unfolding(crate::specs::Commands::symtab_of))]
    fn symtab<W: Width>(&self) -> Result<SymtabCommand, Refusal>
        ensures { result ≡ symtab_of W.Width.wide (S.Source.bytes self.now.source.now) self.now.state.now self.now.command }
    {
        let place = self.state.place;
        let short = Reason::ShortCommand.at(place);
        if u64::from(self.command.cmdsize) < SymtabCommand::SIZE {
            return Err(short);
        }
        let symtab = SymtabCommand::read(self.fields(), place).ok_or(short)?;
        let end = u64::from(symtab.symoff) + u64::from(symtab.nsyms) * Nlist::size::<W>();
        if end > self.source.len() {
            return Err(Reason::SymbolsPastSource.at(place));
        }
        Ok(symtab)
    }
}
