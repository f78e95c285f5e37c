//! A timeline: rows in order of time, found by place, by time and by number.
//!
//! A [`Timeline`] is a list of rows whose times never fall and whose numbers are distinct, and contracts see nothing
//! else of it. A row that comes at a time stands after all rows of that time that are there already, so the place of
//! a time is the number of rows up to it; a row is named by its number, which it keeps wherever it stands. What the
//! rows do is no matter here: they are performed by a structure of the kind.
//!
//! The rows stand in a balanced tree, where a place is found by counting and a time by one way down. To
//! find a number they are divided into runs of at most 32 neighbours. A table has the name of each number's run, which the run
//! keeps; another one has the label of each name, which may change; the label gives the place of the run, and the row is looked
//! for among those of the run. So a label is wanted only where a run is divided, and a relabelling, which a list of labels
//! asks for now and then, writes one label for each run: at least 22 runs are divided between two, and each has had 16
//! insertions since it began.
//!
//! | Call | Cost, with n rows |
//! |---|---|
//! | `len` | constant |
//! | `row_at`, `place_at`, `place_of`, `remove` | log n |
//! | `read_rows` | log n, and one step for each row that it copies |
//! | `insert` | log n, and as much for each run where the runs are relabelled |
//!
//! - `timeline`: the type and its calls. `indexed_rows`: what it keeps of its rows. `edit`: a row comes or goes. `find`: rows, times and numbers.
//! - `runs`: which run has a place, and where a run begins. `divide`: a full run in halves, before a row comes in.
//! - `names`: the names of the runs, found by labels. `table`: the label of each name. `numbers`, `page`: the name of each number's run.
//! - `run`, `total`: a run of rows, and what runs add up to. `run_name`: the name of a run, and a slot for one.
#![tactic(auto)]

mod divide;
mod edit;
mod find;
mod indexed_rows;
mod names;
mod numbers;
mod page;
mod run;
mod run_name;
mod runs;
mod table;
mod timeline;
mod total;

pub use timeline::Timeline;
