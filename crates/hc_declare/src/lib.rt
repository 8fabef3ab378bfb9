//! What is expanded of declarations: the items of a source, and what a block declares, make objects and declare names.
#![tactic(auto)]

mod declaration;
mod declared_names;
mod interface;
mod items;
mod local_items;

pub use items::{Roots, each_item};
pub use local_items::locals;
