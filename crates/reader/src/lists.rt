// What is added to the lists that a reading fills: each is lent by who calls, and lies over slots that are
// lent.
ghost use Rattle.std.specs.Prelude.{◌≡◌};
ghost use Rattle.list.specs.Contents.{contents_of};
ghost use Rattle.reader.specs.Maps.{add_answer, add_file, add_entry};
ghost use Rattle.reader.specs.Walks.{list_answer, listed_segments, listed_sections};

use crate::state::{MapAnswer, SegmentPlan, StepAnswer};
use fields::width::Width;
use list::list::List;
use sections::record::{SectionRecord, SegmentRecord};
use source::refusal::{Reason, Refusal};
use source::source::Source;
use stabs::cursor::Addition;
use stabs::map::{MapEntry, MapFile};
use stabs::split::split_object_name;

// Lists a segment and its sections, or, where a list lacks room, nothing.
pub(crate) fn list_segment<S: Source, W: Width>(
    source: &S,
    plan: SegmentPlan,
    segments: &mut List<SegmentRecord>,
    sections: &mut List<SectionRecord>,
) -> Result<StepAnswer, Refusal>
    ensures answer { result ≡ list_answer plan (contents_of segments.old) (contents_of sections.old) }
    ensures segments { contents_of segments.new ≡ listed_segments plan (contents_of segments.old) (contents_of sections.old) }
    ensures sections { contents_of sections.new ≡ listed_sections W.Width.wide (S.Source.bytes source.now) plan (contents_of segments.old) (contents_of sections.old) }
    ensures segments_owner { segments.new.slots.ghost_name ≡ segments.old.slots.ghost_name }
    ensures sections_owner { sections.new.slots.ghost_name ≡ sections.old.slots.ghost_name }
{
    let table = plan.table;
    // No From leads from a usize or to one; a cast is proved to lose nothing.
    if segments.free() == 0 || sections.free() < table.count as usize {
        return Err(Reason::ListFull.at(table.command));
    }
    let record = SegmentRecord {
        place: table.command,
        // With no section to list, the count may stand at its limit, and no number is needed.
        first: (sections.count() as u64).saturating_add(1),
        count: table.count,
        wrapped: plan.wrapped,
    };
    table.list_sections::<S, W>(source, plan.offsets, sections);
    segments.push(record, table.command)?;
    Ok(StepAnswer::Segment)
}

// Adds what a symbol adds to the object map, if anything, where there is room, or else nothing.
pub(crate) fn add<S: Source>(
    source: &S,
    addition: Option<Addition>,
    place: u64,
    files: &mut List<MapFile>,
    entries: &mut List<MapEntry>,
) -> Result<MapAnswer, Refusal>
    ensures answer { result ≡ add_answer addition place (contents_of files.old) (contents_of entries.old) }
    ensures files { contents_of files.new ≡ add_file (S.Source.bytes source.now) addition (contents_of files.old) }
    ensures entries { contents_of entries.new ≡ add_entry addition (contents_of entries.old) }
    ensures files_owner { files.new.slots.ghost_name ≡ files.old.slots.ghost_name }
    ensures entries_owner { entries.new.slots.ghost_name ≡ entries.old.slots.ghost_name }
{
    match addition {
        Some(Addition::File(name)) => {
            let (path, member) = split_object_name(source, name);
            files.push(MapFile { path, member }, place)?;
        }
        Some(Addition::Entry(entry)) => entries.push(entry, place)?,
        None => {}
    }
    Ok(MapAnswer::Passed)
}
