//! Level adjacency: a graph with levels, and two counts for each vertex. They are of its neighbours on its level or
//! above, and on the level below or above. The counts are kept when levels change. They may be made afresh if edges
//! come into a graph without any, if half of all edges leave, or if many vertices rise.
//!
//! [`LevelAdj`] is the graph with its levels. Its changing calls count their steps in a [`Steps`], which costs nothing
//! when the program runs. [`LevelLists`] has a list of items for each level, for sweeps from level to level.
//! [`put_where`] writes runs of numbers in one list. `specs/` has the definitions: read
//! `LeveledGraph` first.
//!
//! Floor: phases. From above: phases and the engine change and read a [`LevelAdj`].
#![tactic(auto)]

mod afresh;
mod counts;
mod desired;
mod level_adj;
mod level_lists;
mod lifting;
mod links;
mod moves;
mod passes;
mod runs;
mod standing;
mod steps;

pub use level_adj::LevelAdj;
pub use level_lists::LevelLists;
pub use runs::put_where;
pub use steps::Steps;
