//! What single words of a syntax file stand for, before it is asked whether they may stand where
//! they do: names of groups and files, keys of styles and colours, first words of commands.
#![tactic(auto)]

mod command_names;
mod group_names;
mod parts;
mod paths;
mod style_words;

pub use command_names::{CommandName, begins_cpo, begins_variable, command_name, is_guard};
pub use group_names::{is_group_name, is_listed, is_none, is_pattern, is_reserved, special_of};
pub use parts::has_part;
pub use paths::{in_folder, is_file_name};
pub use style_words::{StyleKey, rgb, style_key};
