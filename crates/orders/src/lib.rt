// What the books keep, whatever is called: proved of the rules.
#![tactic(auto)]

mod keeps;

pub use keeps::{
    books_stay_bounded, books_stay_ordered, books_stay_shared, books_stay_spread,
    books_stay_within, refusals_leave_all, tables_have_room,
};
