//! A text painted so that what is concealed shows marks, and its view (`'conceallevel'`,
//! `:syn-conceal`).
ghost use Rattle.std.specs.Prelude.{◌≡◌, ◌≤◌, ◌<◌, ◌+◌, All, false, true, length, IfOk, OnOk};
ghost use Rattle.conceal_view.specs.Marking.{marked_clusters, marked_items};
ghost use Rattle.conceal_view.specs.Marks.{marks_of};
ghost use Rattle.conceal_view.specs.View.{AreNumbered, lines_in as seen_lines, spans_in};
ghost use Rattle.syn_base.specs.SpansFit.{FitLines};
ghost use Rattle.syn_reader.specs.Names.{is_full};
ghost use Rattle.syntax_set.specs.Groups.{with_group};
ghost use Rattle.vimsyn_cli.specs.Changes.{files_between, steps_change};
ghost use Rattle.vimsyn_cli.specs.Concealing.{IsCoverFault, IsUnreadView, IsViewFault, concealed_told, cover_name, covered_told, crowded_fault, marked_syntax, marked_told, seen_of, with_cover};
ghost use Rattle.vimsyn_cli.specs.FileStop.{IsStop};
ghost use Rattle.vimsyn_cli.specs.Painting.{IsRefusedPainting};
ghost use Rattle.vimsyn_cli.specs.Plans.{IfFault, IsExpected, IsOfContent};
ghost use Rattle.vimsyn_cli.specs.Reading.{IsUnreadAsked};
ghost use Rattle.vimsyn_cli.specs.Reads.{Paints, Reads};
ghost use Rattle.vimsyn_cli.specs.Session.{text_lines};

use crate::fault::{Fault, FaultKind, Stop};
use crate::reading::read;
use crate::refusal::refusal;
use crate::text_file::read_text;
use byte_text::push_bytes;
use conceal_view::{Mark, Marked, Viewed, conceal, mark};
use program_words::{CheckWords, PaintWords};
use state_cache::{Painted, Unpainted};
use std::alloc::Global;
use std::marker::Model;
use syn_base::{Files, GroupId, Ledger, List, Memory, Steps};
use syn_reader::Syntax;
use syntax_set::{Groups, ItemSet, SetError};
use text_buffer::Text;

/// The group of the characters that are put in place of what is concealed (`:syn-cchar`).
const COVER: &str = "Conceal";

/// A text painted by marked items, which contracts see with the items of the syntax itself.
#[derive(Drop)]
pub(crate) struct Concealed {
    painted: Painted,
    /// Those of the syntax itself.
    items: ItemSet,
    marks: List<Mark>,
    level: u8,
}

impl Model for Concealed {
    ghost use Rattle.std.specs.Coded.{codes};
    ghost use Rattle.std.specs.Prelude.{◌≡◌, ◌≤◌, ◌<◌, All, length};
    ghost use Rattle.conceal_view.specs.Marks.{marks_of};
    ghost use Rattle.conceal_view.specs.View.{AreNumbered};
    ghost use Rattle.syntax_set.specs.contracts.added_item.AddedItem.{the_row as item_row};
    ghost use Rattle.vimsyn_cli.specs.Concealing as concealing;

    ghost Value = { concealing.ConcealedText };

    ghost coded = { Prim.hlevel (codes, item_row.coded) };

    ghost view = { λ c. record {
      names = c.painted.syntax.groups;
      links = c.painted.syntax.links;
      items = c.items;
      level = c.level;
      text = c.painted.text;
      spans = c.painted.spans;
    } };

    ghost invariant = { λ c. (1 ≤ c.level) × (c.level ≤ 3) × (c.marks ≡ marks_of c.items)
        × AreNumbered 20000 c.marks × All (λ mark. mark.item.0 < length c.items) c.marks };
}

/// A syntax whose items and clusters are marked, and the items themselves.
#[derive(Drop)]
struct MarkedSyntax {
    syntax: Syntax,
    items: ItemSet,
    marks: List<Mark>,
}

impl Concealed {
    /// The syntax that paints: its groups and links are those of the syntax itself.
    pub(crate) fn syntax(&self) -> &Syntax
        ensures groups { result.now.groups ≡ self.now.names }
        ensures links { result.now.links ≡ self.now.links }
    {
        self.painted.syntax()
    }

    /// The view of the text.
    pub(crate) fn view(&self, alloc: Global) -> Result<Viewed, Memory>
        ensures view { IfOk result (λ viewed. viewed ≡ seen_of self.now) }
        ensures as_many { IfOk result (λ viewed.
            length (spans_in viewed) ≡ length (seen_lines viewed)) }
        ensures fit { IfOk result (λ viewed. FitLines (seen_lines viewed) (spans_in viewed)) }
    {
        let found = self.painted.syntax().groups.find(COVER)?;
        let cover = found.unwrap_or(GroupId(0));
        conceal(
            alloc,
            &self.painted,
            &self.items,
            &self.marks,
            cover,
            self.level,
        )
    }
}

/// The text that the words name, painted so that what is concealed at this level shows marks.
pub(crate) fn conceal_text<F: Files, L: Ledger>(
    alloc: Global,
    files: &mut F,
    words: &PaintWords<'_>,
    steps: &mut Steps<L>,
) -> Result<Concealed, Stop>
    requires level { 1 ≤ words.now.conceal }
    ensures { Paints (concealed_told words.now) (IsUnreadView words.now) (IsViewFault words.now) (text_lines words.now)
        (files_between F.told F.faults F.misses F.longs files.old files.new)
        (steps_change steps.old steps.new) result }
{
    let syntax = read_covered(alloc, files, words.syntax())?;
    let text = read_text(alloc, files, words.text())?;
    paint_marked(alloc, words, syntax, text, steps)
}

/// The syntax that the file and those that it asks for define, with the group of the characters that
/// are put.
fn read_covered<F: Files>(
    alloc: Global,
    files: &mut F,
    words: &CheckWords<'_>,
) -> Result<Syntax, Stop>
    ensures { Reads (covered_told words.now) (IsUnreadAsked words.now) (IsCoverFault words.now)
        (files_between F.told F.faults F.misses F.longs files.old files.new) result }
{
    let syntax = read(alloc, files, words)?;
    covered(alloc, words.syntax(), syntax)
}

/// A syntax with the group of the characters that are put.
fn covered(alloc: Global, name: &str, syntax: Syntax) -> Result<Syntax, Stop>
    ensures expected { IsExpected (with_cover name.now syntax) (λ line. ⊥) result }
    ensures told { IfFault result (λ fault. fault ≡ crowded_fault name.now) }
    ensures content { IfFault result IsOfContent }
{
    let mut syntax = syntax;
    match cover(alloc, name, &mut syntax.groups) {
        Ok(()) => Ok(syntax),
        Err(stop) => Err(stop),
    }
}

/// Finds that group, or makes it. The fault is told of the syntax file of this name.
fn cover(alloc: Global, name: &str, groups: &mut Groups) -> Result<(), Stop>
    ensures made { OnOk result (groups.new ≡ with_group groups.old cover_name) }
    ensures roomy { OnOk result (is_full groups.old cover_name ≡ false) }
    ensures crowded { IfFault result (λ fault. is_full groups.old cover_name ≡ true) }
    ensures told { IfFault result (λ fault. fault ≡ crowded_fault name.now) }
{
    match groups.number(COVER) {
        Ok(_) => Ok(()),
        Err(SetError::TooManyGroups) => Err(crowded(alloc, name)),
        Err(_) => Err(Stop::Memory),
    }
}

/// The stop for a syntax file in whose syntax that group finds no room.
fn crowded(alloc: Global, name: &str) -> Stop
    ensures { IsStop (crowded_fault name.now) result }
{
    match crowded_line(alloc, name) {
        Ok(line) => Stop::Fault(Fault {
            line,
            cause: FaultKind::Content,
        }),
        Err(_) => Stop::Memory,
    }
}

fn crowded_line(alloc: Global, name: &str) -> Result<List<u8>, Memory>
    ensures { IfOk result (λ line. line ≡ (crowded_fault name.now).line) }
{
    let mut line = Vec::from_slice(alloc, name.as_bytes())?;
    push_bytes(&mut line, b": too many groups\n")?;
    Ok(List::from_vec(line))
}

/// The painting of a text by the marked syntax.
fn paint_marked<L: Ledger>(
    alloc: Global,
    words: &PaintWords<'_>,
    syntax: Syntax,
    text: Text,
    steps: &mut Steps<L>,
) -> Result<Concealed, Stop>
    requires level { 1 ≤ words.now.conceal }
    ensures planned { IsExpected (marked_told words.now syntax text.lines) (λ line. ⊥) result }
    ensures told { IfFault result (IsRefusedPainting words.now.text) }
    ensures content { IfFault result IsOfContent }
    ensures steps { steps.new ≤ steps.old + length text.lines }
{
    let MarkedSyntax {
        syntax,
        items,
        marks,
    } = marked(alloc, syntax)?;
    match Painted::paint(alloc, syntax, text, words.budget(), steps) {
        Ok(painted) => Ok(Concealed {
            painted,
            items,
            marks,
            level: words.conceal(),
        }),
        Err(Unpainted { error, syntax }) => {
            Err(refusal(alloc, words.text(), &syntax.groups, &items, error))
        }
    }
}

/// The syntax with marks.
fn marked(alloc: Global, syntax: Syntax) -> Result<MarkedSyntax, Memory>
    ensures syntax { IfOk result (λ marked. marked.syntax ≡ marked_syntax syntax) }
    ensures items { IfOk result (λ marked. marked.items ≡ syntax.items) }
    ensures marks { IfOk result (λ marked. marked.marks ≡ marks_of syntax.items) }
    ensures numbered { IfOk result (λ marked. AreNumbered 20000 marked.marks) }
    ensures of_items { IfOk result (λ marked.
        All (λ mark. mark.item.0 < length marked.items) marked.marks) }
{
    let marked = marks_in(alloc, &syntax)?;
    Ok(exchanged(syntax, marked))
}

/// The marked items and clusters of a syntax.
fn marks_in(alloc: Global, syntax: &Syntax) -> Result<Marked, Memory>
    ensures items { IfOk result (λ marked. marked.items ≡ marked_items syntax.now.items) }
    ensures clusters { IfOk result (λ marked.
        marked.clusters ≡ marked_clusters syntax.now.items syntax.now.clusters) }
    ensures marks { IfOk result (λ marked. marked.marks ≡ marks_of syntax.now.items) }
    ensures numbered { IfOk result (λ marked. AreNumbered 20000 marked.marks) }
    ensures of_items { IfOk result (λ marked.
        All (λ mark. mark.item.0 < length syntax.now.items) marked.marks) }
{
    mark(alloc, &syntax.items, &syntax.clusters)
}

/// The syntax with its marked items and clusters in place of its own.
fn exchanged(syntax: Syntax, marked: Marked) -> MarkedSyntax
    requires { marked.items ≡ marked_items syntax.items }
    ensures syntax { result.syntax
        ≡ record syntax { items = marked.items; clusters = marked.clusters } }
    ensures items { result.items ≡ syntax.items }
    ensures marks { result.marks ≡ marked.marks }
{
    MarkedSyntax {
        syntax: Syntax {
            items: marked.items,
            clusters: marked.clusters,
            groups: syntax.groups,
            programs: syntax.programs,
            keywords: syntax.keywords,
            links: syntax.links,
            sets: syntax.sets,
        },
        items: syntax.items,
        marks: marked.marks,
    }
}
