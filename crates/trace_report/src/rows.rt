//! The rows of a trace, written as the steps are shown.

ghost use Rattle.std.specs.Prelude.{◌≡◌, ◌≤◌, ◌++◌, ◌∷◌, [], decimal, drop, IfOk, List, OnOk};
ghost use Rattle.lane_words.specs.declared.limits.TheConstants.{MOST_PARTITIONS};
ghost use Rattle.partitioner.specs.Topic.{partitions_in};
ghost use Rattle.csv.specs.Records.{fields_of};
ghost use Rattle.csv.specs.Writing.{row_text};
ghost use Rattle.report_rows.specs.Rows.{AddsRows, HasText, row_writer};
ghost use Rattle.world.specs.World.{WorldState};
ghost use Rattle.trace_report.specs.Private.Row.{AddsCells};
ghost use Rattle.replay_steps.specs.Steps.{StepTaken, taken};
ghost use Rattle.trace_report.specs.Cells.{code_cell, number_cell, partition_cells, waiting_cell};
ghost use Rattle.trace_report.specs.Sets.{granted_cell, unread_cell};
ghost use Rattle.trace_report.specs.TraceRows.{cells_before, cells_between, cells_of_step, group_cells, header_row, row_of_step, rows_of_steps};
ghost use Rattle.trace_report.specs.Private.Written.{AddsSteps, adds_no_steps, adds_more_steps};
ghost use Rattle.trace_report.specs.Private.Texts.{AreTextsOf};

use crate::cells::{self, Details};
use crate::{sets, texts};
use csv::{ByteRecord, Writer};
use itoa::Buffer;
use lane_words::{Memory, Refusal};
use partitioner::Topic;
use replay_steps::{Step, StepObserver};
use report_rows::rows;
use std::alloc::Global;
use world::World;

/// Texts of cells, which are made anew for each row in the memory of the last.
#[derive(Drop)]
pub struct Texts {
    /// For whom the group waits, each after a space.
    pub waiting: Vec<u8>,
    /// What members are granted, each after a semicolon.
    pub granted: Vec<u8>,
    /// What nobody reads, each text after a space.
    pub unread: Vec<u8>,
}

/// Makes the texts of this world's cells.
fn write_texts(texts: &mut Texts, topics: &[Topic], world: &World) -> Result<(), Memory>
    requires { partitions_in topics.now ≤ MOST_PARTITIONS }
    ensures { OnOk result (AreTextsOf topics.now world.now texts.new) }
{
    cells::write_waiting(&mut texts.waiting, world)?;
    sets::write_granted(&mut texts.granted, topics, world)?;
    sets::write_unread(&mut texts.unread, topics, world)
}

/// Appends a cell to a row.
fn push_cell(row: &mut ByteRecord, cell: &[u8]) -> Result<(), Memory>
    ensures { OnOk result (AddsCells row.old row.new (cell.now ∷ [])) }
{
    row.push_field(cell)?;
    Ok(())
}

/// Appends a cell with a number.
fn push_number(row: &mut ByteRecord, number: u64) -> Result<(), Memory>
    ensures { OnOk result (AddsCells row.old row.new (decimal number ∷ [])) }
{
    push_cell(row, Buffer::new().format(number).as_bytes())
}

/// Appends a cell with a number, or an empty one.
fn push_optional(row: &mut ByteRecord, number: Option<u64>) -> Result<(), Memory>
    ensures { OnOk result (AddsCells row.old row.new (number_cell number ∷ [])) }
{
    match number {
        Some(number) => push_number(row, number),
        None => push_cell(row, b""),
    }
}

/// Appends the cells of a step before those of its partition.
fn push_before(row: &mut ByteRecord, step: &Step<'_>) -> Result<(), Memory>
    ensures { (w : WorldState)
        → OnOk result (AddsCells row.old row.new (cells_before (taken step.now w))) }
{
    push_number(row, step.line)?;
    push_number(row, step.number)?;
    push_cell(row, cells::event_word(step.event))?;
    push_cell(row, step.name)
}

/// Appends the cells of a partition.
fn push_partition(
    row: &mut ByteRecord,
    topics: &[Topic],
    partitions: u32,
    partition: Option<u32>,
) -> Result<(), Memory>
    ensures { OnOk result
        (AddsCells row.old row.new (partition_cells topics.now partitions partition)) }
{
    let (topic, number) = cells::partition_cells(topics, partitions, partition);
    let Some(topic) = topic else {
        return push_optional(row, number);
    };
    push_cell(row, topic)?;
    push_optional(row, number)
}

/// Appends the number of a refusal, or an empty cell.
fn push_code(row: &mut ByteRecord, answer: &Result<(), Refusal>) -> Result<(), Memory>
    ensures { OnOk result (AddsCells row.old row.new (code_cell answer.now ∷ [])) }
{
    match answer {
        Err(why) => push_number(row, u64::from(why.code())),
        Ok(()) => push_cell(row, b""),
    }
}

/// Appends the offsets and the commit of a step, and why it was refused.
fn push_between(row: &mut ByteRecord, step: &Step<'_>, details: Details) -> Result<(), Memory>
    ensures { (w : WorldState)
        → OnOk result (AddsCells row.old row.new (cells_between (taken step.now w) details)) }
{
    push_optional(row, details.from)?;
    push_optional(row, details.to)?;
    push_optional(row, details.commit)?;
    push_code(row, &step.answer)?;
    push_cell(row, cells::reason_cell(&step.answer))
}

/// Appends the cells of the group, given the texts of this world.
fn push_after(
    row: &mut ByteRecord,
    topics: &[Topic],
    world: &World,
    texts: &Texts,
) -> Result<(), Memory>
    requires { AreTextsOf topics.now world.now texts.now }
    ensures { OnOk result (AddsCells row.old row.new (group_cells topics.now world.now)) }
{
    let cluster = world.cluster();
    push_number(row, u64::from(cluster.generation()))?;
    push_cell(row, cells::phase_word(cluster.phase()))?;
    push_cell(row, texts::after_first(texts.waiting.as_slice()))?;
    push_cell(row, texts::after_first(texts.granted.as_slice()))?;
    push_cell(row, texts::after_first(texts.unread.as_slice()))?;
    push_number(row, cells::lag(cluster))
}

/// Makes the row of a step, given the texts of the world's cells.
fn make_row(
    row: &mut ByteRecord,
    topics: &[Topic],
    step: &Step<'_>,
    world: &World,
    texts: &Texts,
) -> Result<(), Memory>
    requires { AreTextsOf topics.now world.now texts.now }
    ensures { OnOk result
        (fields_of row.new ≡ cells_of_step topics.now (taken step.now world.now)) }
{
    let details = cells::details_of(step, world);
    row.clear();
    push_before(row, step)?;
    push_partition(row, topics, world.cluster().partitions(), details.partition)?;
    push_between(row, step, details)?;
    push_after(row, topics, world, texts)
}

/// Writes a row.
fn write_record(writer: &mut Writer<Vec<u8>>, row: &ByteRecord) -> Result<(), Memory>
    ensures { OnOk result
        (AddsRows writer.old writer.new (row_text row_writer (fields_of row.now))) }
{
    if writer.write_byte_record(row).is_err() {
        return Err(Memory);
    }
    Ok(())
}

/// Writes the header.
#[tactic(auto, unfolding(crate::specs::TraceRows::header_row))]
pub fn write_header(writer: &mut Writer<Vec<u8>>, topics: &[Topic]) -> Result<(), Memory>
    ensures { OnOk result (AddsRows writer.old writer.new (header_row topics.now)) }
{
    if topics.is_empty() {
        rows::write_row(
            writer,
            &[
                b"line",
                b"step",
                b"event",
                b"member",
                b"partition",
                b"from",
                b"to",
                b"commit",
                b"code",
                b"reason",
                b"generation",
                b"phase",
                b"waiting",
                b"granted",
                b"unread",
                b"lag",
            ],
        )
    } else {
        rows::write_row(
            writer,
            &[
                b"line",
                b"step",
                b"event",
                b"member",
                b"topic",
                b"partition",
                b"from",
                b"to",
                b"commit",
                b"code",
                b"reason",
                b"generation",
                b"phase",
                b"waiting",
                b"granted",
                b"unread",
                b"lag",
            ],
        )
    }
}

/// Writes a row for each step that it is shown.
#[derive(Drop)]
pub struct TraceRows<'a> {
    /// What the rows are written to.
    pub writer: Writer<Vec<u8>>,
    /// The topics by which partitions are named; none without topics.
    pub topics: &'a [Topic],
    /// The texts of a row.
    pub texts: Texts,
    /// The cells of a row, which are made anew for each in the memory of the last.
    pub row: ByteRecord,
    ghost within: { partitions_in topics.now ≤ MOST_PARTITIONS },
}

impl StepObserver for TraceRows<'_> {
    ghost Shows = { λ a steps b. AddsSteps a.topics.now a.writer steps b.topics.now b.writer };

    fn show(&mut self, step: &Step<'_>, world: &World) -> Result<(), Memory> {
        write_texts(&mut self.texts, self.topics, world)?;
        make_row(&mut self.row, self.topics, step, world, &self.texts)?;
        write_record(&mut self.writer, &self.row)
    }

    ghost shows_nothing = { λ a. adds_no_steps a.topics.now a.writer };

    ghost shows_more = { λ a b c first second x y. adds_more_steps a.topics.now a.writer first
        b.topics.now b.writer second c.topics.now c.writer x y };
}

/// Before the first step: the header is written.
pub fn begun(alloc: Global, topics: &[Topic]) -> Result<TraceRows<'_>, Memory>
    requires { partitions_in topics.now ≤ MOST_PARTITIONS }
    ensures topics { IfOk result (λ rows. rows.topics.now ≡ topics.now) }
    ensures rows { IfOk result (λ rows. HasText rows.writer (header_row topics.now)) }
{
    let mut writer = rows::new_writer(alloc);
    write_header(&mut writer, topics)?;
    Ok(TraceRows {
        writer,
        topics,
        texts: Texts {
            waiting: Vec::new(alloc),
            granted: Vec::new(alloc),
            unread: Vec::new(alloc),
        },
        row: ByteRecord::new(alloc),
    })
}
