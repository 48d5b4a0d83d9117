//! The parts of a picture that are always the same.

ghost use Rattle.std.specs.Prelude.{◌≡◌, ◌++◌, OnOk};
ghost use Rattle.timeline_svg.specs.Picture.{key_text, style_text};

use lane_words::Memory;

/// What the picture means, its colours in light and dark, the hatching, and the ground.
const STYLE: &str = concat!(
    "<desc id=\"desc\">Each lane is a range of partitions, and each column an event that ",
    "shows. A band in a member's colour: its consumer reads these partitions. Hatched: ",
    "nobody reads them. Dashed lines: a new generation. Boxes: polls, with partition and ",
    "offsets. Arcs: commits, from where they were sent to a tick where they were ",
    "accepted, or to a cross where they were refused. Dotted arcs: nobody got the ",
    "reply.</desc>\n",
    "<style>\n",
    "svg { color-scheme: light dark; font: 12px ui-monospace, SFMono-Regular, Menlo, ",
    "Consolas, \"DejaVu Sans Mono\", monospace; }\n",
    "text { fill: #1f2328; white-space: pre; }\n",
    ".paper { fill: #ffffff; }\n",
    ".hatch-ground { fill: #ffffff; }\n",
    ".hatch-line { stroke: #d1242f; stroke-width: 4; }\n",
    ".rule { stroke: #d0d7de; fill: none; }\n",
    ".number, .name { font-weight: bold; }\n",
    ".label { text-anchor: end; }\n",
    ".offsets, .reason { text-anchor: middle; font-size: 11px; }\n",
    ".reason, .refusal text { fill: #b3141d; font-size: 11px; }\n",
    ".generation { stroke: #1f2328; stroke-dasharray: 5 4; fill: none; }\n",
    ".send, .poll rect { stroke: #1f2328; }\n",
    ".arc, .tick { stroke: #1f2328; stroke-width: 1.5; fill: none; }\n",
    ".tick { stroke-width: 2.5; }\n",
    ".unanswered .arc { stroke-width: 2.5; stroke-dasharray: 0 5; stroke-linecap: round; ",
    "}\n",
    ".cross { stroke: #d1242f; stroke-width: 2.5; fill: none; }\n",
    ".key text { fill: #59636e; }\n",
    ".span { stroke: #6e7781; }\n",
    ".m1 { fill: #0b3c6f; }\n",
    ".m2 { fill: #f0c24b; }\n",
    ".m3 { fill: #1c7c85; }\n",
    ".m4 { fill: #d9ecf8; }\n",
    ".m5 { fill: #7a3b8f; }\n",
    ".m6 { fill: #ee9d52; }\n",
    ".m7 { fill: #c07aa8; }\n",
    ".m8 { fill: #3b1f0a; }\n",
    ".on1, .on3, .on5, .on8 { fill: #ffffff; }\n",
    ".on2, .on4, .on6, .on7 { fill: #111111; }\n",
    ".span.unread { fill: url(#hatch); stroke: #d1242f; }\n",
    ".name.unread { fill: #1f2328; stroke: #ffffff; stroke-width: 4px; paint-order: ",
    "stroke; }\n",
    "@media (prefers-color-scheme: dark) {\n",
    "text { fill: #e6edf3; }\n",
    ".paper, .hatch-ground { fill: #0d1117; }\n",
    ".hatch-line { stroke: #e5484d; }\n",
    ".rule { stroke: #30363d; }\n",
    ".generation, .send, .poll rect, .arc, .tick { stroke: #e6edf3; }\n",
    ".cross, .span.unread { stroke: #ff6a69; }\n",
    ".reason, .refusal text { fill: #ff8f8a; }\n",
    ".key text { fill: #9198a1; }\n",
    ".on1, .on3, .on5, .on8 { fill: #ffffff; }\n",
    ".on2, .on4, .on6, .on7 { fill: #111111; }\n",
    ".name.unread { fill: #ffffff; stroke: #0d1117; }\n",
    "}\n",
    "</style>\n",
    "<defs><pattern id=\"hatch\" width=\"8\" height=\"8\" ",
    "patternUnits=\"userSpaceOnUse\" patternTransform=\"rotate(45)\"><rect ",
    "class=\"hatch-ground\" width=\"8\" height=\"8\"/><path class=\"hatch-line\" d=\"M0 ",
    "0V8\"/></pattern></defs>\n",
    "<rect class=\"paper\" width=\"100%\" height=\"100%\"/>\n",
);

/// What the signs mean, and the end of the picture.
const KEY: &str = concat!(
    "<text>Hatched red: nobody reads. Dashed: a new generation.</text>\n",
    "<text y=\"16\">Box: a poll, partition:from-to.</text>\n",
    "<text y=\"32\">Dot: a commit sent. Tick: accepted.</text>\n",
    "<text y=\"48\">Cross: refused. Dotted: no reply came.</text>\n",
    "</g>\n",
    "</g>\n",
    "</svg>\n",
);

/// Appends what the picture means, and its styles.
#[tactic(auto, unfolding(crate::specs::Picture::style_text))]
pub fn put_style(out: &mut Vec<u8>) -> Result<(), Memory>
    ensures { OnOk result (out.new.items ≡ out.old.items ++ style_text) }
{
    out.extend_from_slice(STYLE.as_bytes())?;
    Ok(())
}

/// Appends what the signs mean, and the end of the picture.
#[tactic(auto, unfolding(crate::specs::Picture::key_text))]
pub fn put_key(out: &mut Vec<u8>) -> Result<(), Memory>
    ensures { OnOk result (out.new.items ≡ out.old.items ++ key_text) }
{
    out.extend_from_slice(KEY.as_bytes())?;
    Ok(())
}
