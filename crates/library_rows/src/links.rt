//! Calls of `Groups` of `syntax_set` and of `hi_links`.
//!
//! The arguments of `links`, and of `usual`, where the groups of the start are there, are calls in order:
//!
//!     number A         the number of a group, which is made if it is new
//!     find A           the number of a group, if there is one
//!     name 0           the name of a group
//!     count 0          how many groups there are beyond that many
//!     link A B         A is linked to B
//!     default A B      so by default
//!     bold A 00ff00    A is shown bold on this colour
//!     final A          the group that A's links lead to
//!     style A          front, back, whether bold, italic, underlined

use crate::answer::{add_found, add_number, add_word, begin_answer};
use crate::fault::{Fault, number_of, short_number_of, two_of};
use hi_links::{Links, Style};
use std::alloc::Global;
use syn_base::GroupId;
use syntax_set::Groups;

/// Groups, and how they are shown.
#[derive(Drop)]
pub(crate) struct Shown {
    pub(crate) groups: Groups,
    pub(crate) links: Links,
}

impl Shown {
    /// No groups.
    pub(crate) fn none(alloc: Global) -> Shown {
        Shown {
            groups: Groups::new(alloc),
            links: Links::new(alloc),
        }
    }

    /// The groups of the start.
    pub(crate) fn usual(alloc: Global) -> Result<Shown, Fault> {
        let mut groups = Groups::new(alloc);
        let links = Links::usual(alloc, &mut groups)?;
        Ok(Shown { groups, links })
    }

    /// Links one group to another.
    pub(crate) fn link(&mut self, from: &str, to: &str, by_default: bool) -> Result<(), Fault> {
        let from = self.groups.number(from)?;
        let to = self.groups.number(to)?;
        self.links.link(from, Some(to), by_default, false)?;
        Ok(())
    }

    fn set_bold(&mut self, name: &str, back: &str) -> Result<(), Fault> {
        let Ok(back) = u32::from_str_radix(back, 16) else {
            return Err(Fault::BadCase);
        };
        let style = Style {
            front: None,
            back: Some(back),
            bold: true,
            italic: false,
            underline: false,
        };
        let group = self.groups.number(name)?;
        self.links.set_style(group, style, false)?;
        Ok(())
    }

    /// Makes a call: it changes something, or adds an answer.
    fn carry_out(&mut self, call: &str, answers: &mut String) -> Result<(), Fault> {
        let (name, rest) = two_of(call)?;
        match name {
            "link" | "default" => {
                let (from, to) = two_of(rest)?;
                self.link(from, to, name == "default")
            }
            "bold" => {
                let (group, back) = two_of(rest)?;
                self.set_bold(group, back)
            }
            "find" => self.find(rest, answers),
            "name" => add_word(answers, self.groups.name(GroupId(short_number_of(rest)?))),
            "count" => {
                let more = self.groups.len().saturating_sub(number_of(rest)?);
                add_number(answers, more)
            }
            _ => {
                let group = self.groups.number(rest)?;
                self.tell(name, group, answers)
            }
        }
    }

    fn find(&self, name: &str, answers: &mut String) -> Result<(), Fault> {
        match self.groups.find(name)? {
            Some(group) => add_number(answers, group.0 as usize),
            None => add_found(answers, None),
        }
    }

    /// Tells something of a group.
    fn tell(&self, name: &str, group: GroupId, answers: &mut String) -> Result<(), Fault> {
        match name {
            "number" => add_number(answers, group.0 as usize),
            "final" => add_word(answers, self.groups.name(self.links.final_group(group))),
            "style" => add_style(answers, &self.links.style(group)),
            _ => Err(Fault::BadCase),
        }
    }
}

/// Adds a style's parts.
fn add_style(answers: &mut String, style: &Style) -> Result<(), Fault> {
    begin_answer(answers)?;
    write_colour(answers, style.front)?;
    answers.push(',')?;
    write_colour(answers, style.back)?;
    let bold = u8::from(style.bold);
    let italic = u8::from(style.italic);
    let underline = u8::from(style.underline);
    write!(answers, ",{bold},{italic},{underline}")?;
    Ok(())
}

fn write_colour(answer: &mut String, colour: Option<u32>) -> Result<(), Fault> {
    match colour {
        Some(colour) => write!(answer, "{colour:06x}")?,
        None => answer.push('-')?,
    }
    Ok(())
}

pub(crate) fn of_none(alloc: Global, calls: &[&str], answers: &mut String) -> Result<(), Fault> {
    let mut shown = Shown::none(alloc);
    carry_out_all(&mut shown, calls, answers)
}

pub(crate) fn of_usual(alloc: Global, calls: &[&str], answers: &mut String) -> Result<(), Fault> {
    let mut shown = Shown::usual(alloc)?;
    carry_out_all(&mut shown, calls, answers)
}

fn carry_out_all(shown: &mut Shown, calls: &[&str], answers: &mut String) -> Result<(), Fault> {
    for call in calls {
        shown.carry_out(call, answers)?;
    }
    Ok(())
}
