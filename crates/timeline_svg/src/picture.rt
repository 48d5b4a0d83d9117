//! The picture of a timeline.

ghost use Rattle.std.specs.Prelude.{◌≡◌, ◌++◌, IfOk, OnOk};
ghost use Rattle.timeline_svg.specs.Picture.{below_text, figures_open, key_open, lanes_open, lanes_text, longest_name, picture_of, picture_of_lanes, picture_open};

use crate::columns::put_columns;
use crate::figures::put_figures;
use crate::headings::put_headings;
use crate::lanes::put_lanes;
use crate::layout::{height, lane_y, margin, row_y, width};
use crate::pieces::Piece::{Number, Text};
use crate::pieces::put;
use crate::places::lane_starts;
use crate::style::{put_key, put_style};
use lane_words::Memory;
use partitioner::Topic;
use std::alloc::Global;
use timeline::Timeline;

/// The letters of the longest name of a topic.
fn longest_name(topics: &[Topic]) -> usize
    ensures { result ≡ longest_name topics.now }
{
    let mut letters = 0;
    let mut rest = topics;
    while let [topic, more @ ..] = rest {
        letters = topic.name.text().len().max(letters);
        rest = more;
    }
    letters
}

/// Appends the begin of a picture of this width and height: its size, and a title.
#[tactic(auto, unfolding(crate::specs::Picture::picture_open))]
fn put_picture_open(
    out: &mut Vec<u8>,
    wide: u128,
    high: u128,
    members: usize,
    partitions: usize,
) -> Result<(), Memory>
    ensures { OnOk result (out.new.items
        ≡ out.old.items ++ picture_open wide high members partitions) }
{
    put(
        out,
        &[
            Text(b"<svg xmlns=\"http://www.w3.org/2000/svg\" width=\""),
            Number(wide),
            Text(b"\" height=\""),
            Number(high),
            Text(b"\" viewBox=\"0 0 "),
            Number(wide),
            Text(b" "),
            Number(high),
            Text(b"\" role=\"graphics-document document\" aria-labelledby=\"title desc\">\n"),
            Text(b"<title id=\"title\">Who reads which partition: "),
            Number(members as u128),
            Text(b" members, "),
            Number(partitions as u128),
            Text(b" partitions</title>\n"),
        ],
    )
}

fn put_lanes_open(out: &mut Vec<u8>, letters: usize) -> Result<(), Memory>
    ensures { OnOk result (out.new.items ≡ out.old.items ++ lanes_open letters) }
{
    put(
        out,
        &[
            Text(b"<g transform=\"translate("),
            Number(margin(letters)),
            Text(b" 0)\">\n"),
        ],
    )
}

fn put_figures_open(out: &mut Vec<u8>, lanes: usize) -> Result<(), Memory>
    ensures { OnOk result (out.new.items ≡ out.old.items ++ figures_open lanes) }
{
    let y = lane_y(lanes);
    put(
        out,
        &[
            Text(b"<text class=\"label\" x=\"-8\" y=\""),
            Number(y + 16),
            Text(b"\">generation</text>\n</g>\n<g class=\"figures\" transform=\"translate(16 "),
            Number(y + 56),
            Text(b")\">\n"),
        ],
    )
}

fn put_key_open(out: &mut Vec<u8>, lanes: usize) -> Result<(), Memory>
    ensures { OnOk result (out.new.items ≡ out.old.items ++ key_open lanes) }
{
    put(
        out,
        &[
            Text(b"<g class=\"key\" transform=\"translate(0 "),
            Number(row_y(lanes) + 72),
            Text(b")\">\n"),
        ],
    )
}

/// Appends the lanes, with the script's lines over them and what happens in them.
fn put_lanes_text(
    out: &mut Vec<u8>,
    topics: &[Topic],
    script: &[u8],
    timeline: &Timeline,
    starts: &[usize],
) -> Result<(), Memory>
    ensures { OnOk result (out.new.items ≡ out.old.items
        ++ lanes_text topics.now script.now timeline.now starts.now) }
{
    put_lanes_open(out, longest_name(topics))?;
    put_headings(out, timeline.columns(), starts.len(), script)?;
    put_lanes(out, topics, timeline, starts)?;
    put_columns(out, topics, timeline, starts)
}

/// Appends the figures, and what the signs mean.
fn put_below(
    out: &mut Vec<u8>,
    topics: &[Topic],
    timeline: &Timeline,
    starts: &[usize],
) -> Result<(), Memory>
    ensures { OnOk result (out.new.items ≡ out.old.items
        ++ below_text topics.now timeline.now starts.now) }
{
    put_figures_open(out, starts.len())?;
    put_figures(out, topics, timeline, starts)?;
    put_key_open(out, starts.len())?;
    put_key(out)
}

fn put_picture(
    out: &mut Vec<u8>,
    topics: &[Topic],
    script: &[u8],
    timeline: &Timeline,
    starts: &[usize],
) -> Result<(), Memory>
    ensures { OnOk result (out.new.items ≡ out.old.items
        ++ picture_of_lanes topics.now script.now timeline.now starts.now) }
{
    let wide = width(longest_name(topics), timeline.columns().len());
    let high = height(starts.len());
    put_picture_open(
        out,
        wide,
        high,
        timeline.names().len(),
        timeline.partitions(),
    )?;
    put_style(out)?;
    put_lanes_text(out, topics, script, timeline, starts)?;
    put_below(out, topics, timeline, starts)
}

/// The picture of a timeline of a script, as SVG: text of ASCII letters, and well-formed XML.
#[tactic(auto, unfolding(crate::specs::Picture::picture_of))]
pub fn picture_of(
    alloc: Global,
    topics: &[Topic],
    script: &[u8],
    timeline: &Timeline,
) -> Result<Vec<u8>, Memory>
    ensures { IfOk result (λ text. text.items
        ≡ picture_of topics.now script.now timeline.now) }
{
    let starts = lane_starts(alloc, topics, timeline)?;
    let mut out = Vec::new(alloc);
    put_picture(&mut out, topics, script, timeline, &starts)?;
    Ok(out)
}
