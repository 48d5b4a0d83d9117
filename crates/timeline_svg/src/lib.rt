//! The picture of a timeline, as SVG. Promises:
//! - `picture_of` returns the picture that its definition says (`specs/Picture.antt`), byte for
//!   byte: a function of the topics, the script's text and the timeline alone. Only an allocation
//!   can fail.
//! - All coordinates are whole numbers, and follow from the numbers of columns and lanes
//!   (`specs/Layout.antt`). No text is measured.
//! - Bytes of the script are escaped, and those that are not printable ASCII are dots. Names of
//!   members and topics need no escaping: they are letters, digits, `-` and `_`.
//!
//! That the picture is well-formed XML, and looks right, is tested and not proved.
//!
//! Tests: `report_tests`, through `draw_report`, and the black-box tests.
#![tactic(auto)]

mod bands;
mod columns;
mod figures;
mod headings;
mod lanes;
mod layout;
mod marks;
mod picture;
mod pieces;
mod places;
mod style;
mod words;

pub use picture::picture_of;
