//! Calls of `pick` of `item_pick`, of a syntax that has no item.
//!
//!     pick ab 1    what starts in a line at a column, and the first and the last line looked at

use crate::fault::{Fault, number_of};
use crate::printed::OneLine;
use char_class::Sets;
use item_pick::{Parts, Picked, pick};
use keyword_table::Keywords;
use pattern_match::Programs;
use state_stack::State;
use std::alloc::Global;
use syn_base::{List, Place};
use syntax_set::{Clusters, ItemSet};

/// The most that an attempt may cost.
const BUDGET: u64 = 1000;

pub(crate) fn of_none(alloc: Global, arguments: &[&str], answer: &mut String) -> Result<(), Fault> {
    let [line, column] = arguments else {
        return Err(Fault::BadCase);
    };
    let line = List::from_chars(alloc, line)?;
    let col = number_of(column)?;
    if col > line.len() {
        return Err(Fault::BadCase);
    }
    let parts = Parts {
        items: &ItemSet::new(alloc),
        clusters: &Clusters::new(alloc),
        programs: &Programs::new(alloc),
        keywords: &Keywords::new(alloc),
        sets: &Sets::usual(),
    };
    let lines = OneLine {
        characters: line.as_slice(),
        spans: &[],
    };
    let at = Place { line: 0, col };
    let tried = List::new(alloc);
    let picked = pick(alloc, &parts, &lines, at, &State::new(), 0, &tried, BUDGET)?;
    write_picked(&picked, answer)
}

fn write_picked(picked: &Picked, answer: &mut String) -> Result<(), Fault> {
    match picked {
        Picked::Nothing(looked) => {
            write!(answer, "nothing {} {}", looked.low, looked.high)?;
            Ok(())
        }
        Picked::Start(..) | Picked::SkipOn(_) | Picked::TooCostly { .. } => {
            answer.push_str("something")?;
            Ok(())
        }
    }
}
