// Member lists: who has which standing. A table of rows, and two layers that lie over any member list.
#![tactic(auto)]

mod flat_roll;
mod full;
mod leaver_table;
mod leavers;
mod member_list;
mod piles;
mod row_text;
mod tokens;

pub use flat_roll::{FlatRoll, MemberRow};
pub use full::LayerFull;
pub use leavers::LeaversLayer;
pub use member_list::MemberList;
pub use piles::{layers_keep_order, leavers_over_tokens, tokens_over_leavers};
pub use row_text::RowText;
pub use tokens::TokenLayer;
