//! All outputs that any secret can give: the replay of a cut, walked with masks along every string of bits that can cross
//! the cut. Where no walk looks at or decides by a bit that may differ and has not crossed, every secret's run follows one
//! of these walks.
#![tactic(auto)]

mod bit_strings;
mod bounds;
mod closed_states;
mod counts;
mod endings;
mod entries;
mod findings;
mod idle_visits;
mod judging;
mod kept_patterns;
mod laws;
mod numbers;
mod open_places;
mod path_ends;
mod pattern_set;
mod patterns;
mod public_inputs;
mod resting;
mod searching;
mod shown;
mod starting;
mod stepping;
mod stops;
mod sums;
mod turns;
mod verdicts;
mod visits;
mod walking;
mod watched_shadows;
mod whys;

pub use bounds::bound;
pub use laws::{
    bounds_tell_of_all_pairs, bounds_tell_of_all_secrets, runs_choose_paths,
    same_states_have_the_same_below, tables_are_sound, tables_have_rules,
};
pub use numbers::{free_bits, output_bits, output_count};
pub use patterns::Pattern;
pub use public_inputs::PublicInput;
pub use stops::PathStop;
pub use verdicts::{BoundVerdict, Bounded, StoppedPath};
pub use whys::UnclearWhy;
