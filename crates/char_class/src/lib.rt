//! Which characters a class of a pattern has, what the value of an option such as 'iskeyword'
//! stands for, and how characters compare with case ignored.
//!
//! A set of characters is kept as its members below 256 alone, in a bit set that is made once from
//! the option's value: above 255 every set holds the same characters, the alphabetic and the
//! numeric ones.
#![tactic(auto)]

mod char_set;
mod classes;
mod codes;
mod folds;
mod option_value;
mod sets;

pub use char_set::CharSet;
pub use classes::class_has;
pub use codes::Codes;
pub use folds::{fold, range_has, same};
pub use option_value::BadOption;
pub use sets::Sets;
