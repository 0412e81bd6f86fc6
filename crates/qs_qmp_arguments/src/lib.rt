//! The arguments of QMP's commands, read into commands.
#![tactic(auto)]

mod arguments;
mod command_name;
mod fault;
mod keys;
mod kinds;
mod limiting;
mod node;

pub use arguments::{
    are_arguments, argument, choice_at, id_at, none_but, text_at, truth_at, whole_at, word_at,
};
pub use command_name::CommandName;
pub use fault::{ArgumentFault, Class, invalid, missing, refusal};
pub use keys::ArgumentKeys;
pub use kinds::is_empty_list;
