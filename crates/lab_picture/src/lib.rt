//! The picture of a script, a form of the lab: an SVG sequence diagram of what its members and mirrors did.
//!
//! What is promised of it: `docs/promises/lab_picture.md`.
#![tactic(auto)]

mod columns;
mod drawing;
mod laws;
mod marks;
mod page;
mod picture;
mod shape;
mod sights;
mod svg;
mod words;

pub use laws::{escaped_text_has_no_markup, pictures_are_markup};
pub use picture::draw;
