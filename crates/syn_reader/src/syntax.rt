//! A syntax, and why there is none.

use char_class::Sets;
use hi_links::Links;
use keyword_table::Keywords;
use pattern_match::Programs;
use std::alloc::AllocError;
use std::marker::Model;
use syn_base::{List, Memory};
use syn_words::Cause;
use syntax_set::{Clusters, Groups, ItemSet};

/// How syntax files are read.
#[derive(Drop)]
pub struct ReadOptions {
    /// The folder that stands before the names of included files, without a slash at its end.
    pub folder: List<char>,
    /// Each `syntax sync` counts as `fromstart`.
    pub assume_fromstart: bool,
}

/// A syntax. Each pattern of an item was added to the programs under its number, and its tree is the
/// one there; each keyword starts an item that was added.
#[derive(Drop)]
pub struct Syntax {
    pub items: ItemSet,
    pub clusters: Clusters,
    pub groups: Groups,
    pub programs: Programs,
    pub keywords: Keywords,
    pub links: Links,
    pub sets: Sets,
}

impl Model for Syntax {
    ghost use Rattle.syn_reader.specs.Soundness as soundness;
    ghost use Rattle.syn_reader.specs.SyntaxCode.{syntax_code};

    ghost Value = { soundness.SyntaxParts };

    ghost coded = { syntax_code };

    ghost view = { λ s. record {
      items = s.items;
      clusters = s.clusters;
      groups = s.groups;
      programs = s.programs;
      keywords = s.keywords;
      links = s.links;
      sets = s.sets;
    } };

    ghost invariant = { λ s. soundness.IsSound s.items s.programs s.keywords };
}

/// Why there is no syntax. Lines count from 1. Where the first file itself isn't fetched whole,
/// `file` is its name and `line` is 0; where another file isn't, they are those of the command that
/// asks for it.
#[derive(Drop)]
pub enum ReadError {
    /// A line has no meaning, a limit is reached or a file is too long.
    Refused {
        file: List<char>,
        line: usize,
        cause: Cause,
    },
    /// There is no file of that name.
    Missing {
        file: List<char>,
        line: usize,
        name: List<char>,
    },
    /// The file of that name couldn't be read.
    FileFault {
        file: List<char>,
        line: usize,
        name: List<char>,
    },
    Memory,
}

impl From<Memory> for ReadError {
    ghost use Rattle.std.specs.Prelude.{◌≡◌};
    ghost use Rattle.syn_reader.specs.declared.syntax.ReadError.TheVariants as error;

    ghost from_gives = { λ _ e. e ≡ error.Memory };

    fn from(_: Memory) -> ReadError {
        ReadError::Memory
    }
}

impl From<AllocError> for ReadError {
    ghost use Rattle.std.specs.Prelude.{◌≡◌};
    ghost use Rattle.syn_reader.specs.declared.syntax.ReadError.TheVariants as error;

    ghost from_gives = { λ _ e. e ≡ error.Memory };

    fn from(_: AllocError) -> ReadError {
        ReadError::Memory
    }
}
