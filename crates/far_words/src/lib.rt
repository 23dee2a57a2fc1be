//! The words of the service: names, their kinds, bytes, places of blocks, moves and the stamps of parked blocks.
//!
//! What is asked and told in these words is in `far_asks`. Contracts see a name or a [`Blob`] as the list of its bytes. The rules
//! that the words follow are in `docs/RULES.md`, and their texts in `docs/FORMATS.md`.
#![tactic(auto)]

mod blob;
mod kind;
mod limits;
mod moves;
mod part;
mod path;
mod place;
mod stamp;
mod text;

pub use blob::Blob;
pub use kind::Kind;
pub use limits::{MOST_IN_FILE, MOST_IN_QUEUE};
pub use moves::{Moves, PlacedRow};
pub use part::Part;
pub use path::Path;
pub use place::{Names, Place, Places};
pub use stamp::{Found, ImageFault, Stamp, Unfit};
