//! The sets of the three options that classes go by.
ghost use Rattle.std.specs.Prelude.{◌≡◌, Ok, IsOk, codes};
ghost use Rattle.std.specs.Str.{chars};
ghost use Rattle.char_class.specs.OptionValue.{set_of};

use crate::CharSet;

/// The sets of 'isident', 'iskeyword' and 'isfname'.
#[derive(Drop)]
pub struct Sets {
    /// Of `\i`.
    pub ident: CharSet,
    /// Of `\k`, `\<` and `\>`.
    pub keyword: CharSet,
    /// Of `\f`.
    pub file: CharSet,
}

impl Sets {
    /// The sets of the values that the options have unless they are set.
    pub fn usual() -> Sets
        ensures ident { set_of (codes "@,48-57,_,192-255") ≡ Ok result.ident }
        ensures keyword { set_of (codes "@,48-57,_,192-255") ≡ Ok result.keyword }
        ensures file { set_of (codes "@,48-57,/,.,-,_,+,,,#,$,%,~,=") ≡ Ok result.file }
    {
        Sets {
            ident: known("@,48-57,_,192-255"),
            keyword: known("@,48-57,_,192-255"),
            file: known("@,48-57,/,.,-,_,+,,,#,$,%,~,="),
        }
    }
}

/// The set of a value whose reading is known.
fn known(text: &str) -> CharSet
    requires { IsOk (set_of (chars text.now)) }
    ensures { set_of (chars text.now) ≡ Ok result }
{
    match CharSet::from_option(text) {
        Ok(set) => set,
        Err(_) => unreachable!(),
    }
}
