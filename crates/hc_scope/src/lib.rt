//! What names mean, and what a tree expands to. `specs/` has the definition of expansion as a whole, which the crates above
//! carry out. `src/` has what all of them share: scopes and the look-up of a name, the state of an expansion, refusals, the
//! count of nodes and calls, and how objects and macros are made and declared.
#![tactic(auto)]

mod call;
mod macros;
mod making;
mod marked;
mod names;
mod naming;
mod pins;
mod refusal;
mod scope;
mod shown;
mod state;
mod table;
mod taking;
mod value_type;
mod visiting;

pub use call::call_scope;
pub use macros::{macro_form, macro_place};
pub use making::{FirstValues, declare_array, declare_object, make};
pub use marked::Marked;
pub use names::{Names, all_of, declare};
pub use naming::named;
pub use pins::pins_of;
pub use refusal::{broken, broken_name, broken_word, widths_differ, wrong_number};
pub use scope::{Declared, Found, Meaning, Named, Scope, find};
pub use shown::Shown;
pub use state::State;
pub use table::fresh;
pub use taking::taken;
pub use value_type::ValueType;
pub use visiting::{enter, is_call, is_macro, place_of, simple_place, visit};
