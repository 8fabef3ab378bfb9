//! The grammar of a source: what its tokens have to pass before it, and which tree they have. First the checks: no word
//! that the profile leaves out (S3), and no token nested more than 200 deep (L3). Then the grammar, by recursive descent: a
//! function for each form of its rules, proved to read what the form reads and to stop where it stops (S2).
//! `specs/Parsed.antt` says what the tree of a source is and what a source breaks first.
#![tactic(auto)]

mod among;
mod before;
mod begins;
mod block;
mod boxes;
mod check;
mod conditional;
mod declaration;
mod for_loop;
mod interface;
mod item;
mod laws;
mod left_out;
mod levels;
mod macros;
mod memories;
mod named;
mod names;
mod nesting;
mod open;
mod ordered;
mod parts;
mod prialt;
mod role;
mod signals;
mod source;
mod statement;
mod switch;
mod variables;
mod with_list;
mod written;

pub use check::check_tokens;
pub use laws::{
    never_both, one_first_breach, one_first_refusal, one_tree, passes_or_breach,
    passes_without_breach, tree_or_refusal,
};
pub use source::parse;
