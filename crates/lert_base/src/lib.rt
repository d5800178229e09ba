//! What the layers of LERT share: settings and their edges, count tables, streams of pieces, entries,
//! the states that take them and why a cone refuses them, words.
//!
//! The one contract is that of the settings: each reader answers the whole-number formula of its
//! definition. The traits say what a table of counts, a stream of pieces, a taker of totals and a
//! state under a lock promise, so that the crates above are generic over them. Each type is seen as
//! the plain value that it stands for, a list or a record of numbers.
#![tactic(auto)]

mod cone_fault;
mod count_table;
mod entry;
mod held;
mod kept;
mod key_list;
mod pieces;
mod settings;
mod totals;
mod words;

pub use cone_fault::ConeFault;
pub use count_table::CountTable;
pub use entry::Entry;
pub use held::Held;
pub use kept::Kept;
pub use key_list::KeyList;
pub use lert_spec::{Item, Numbers, Piece, Report};
pub use pieces::{PieceFault, Pieces};
pub use settings::{BadSetting, Settings};
pub use totals::Totals;
pub use words::Words;
