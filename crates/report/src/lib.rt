// From input items to output lines.
#![tactic(auto)]

pub mod items;
pub mod lines;
pub mod stream;

pub use items::{ITEM_BYTES, Item, ItemFault, Items, MOST_ITEMS, split, wanted};
pub use lines::{Line, LineFault, print_report, report, tell};
pub use stream::next_item;
