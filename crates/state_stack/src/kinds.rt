//! The kinds of a stack's frames.
ghost use Rattle.std.specs.Prelude.{◌≡◌, [], ◌∷◌, IfOk, MatchOption, true};
ghost use Rattle.paint_rules.specs.Frames.{Frame as FrameRules};
ghost use Rattle.state_stack.specs.Kinds.{has, is_area, is_of, kind_of, same_kind};

use crate::Frame;
use paint_rules::Part;
use std::alloc::Global;
use std::marker::Model;
use std::rc::Rc;
use syn_base::{ItemId, Memory};

/// What some frames have in common: their item, and whether they are an area of it.
#[derive(Clone, Copy)]
pub struct Kind {
    pub item: ItemId,
    /// A region's start or end area (`:syn-matchgroup`).
    pub in_area: bool,
}

/// Some kinds, the last one that came first. Lists share their ends.
#[cycle(kinds)]
#[derive(Drop)]
pub struct Kinds {
    first: KindLink,
}

#[cycle(kinds)]
#[derive(Drop)]
enum KindLink {
    Nothing,
    On(Rc<KindNode>),
}

#[cycle(kinds)]
#[derive(Drop)]
struct KindNode {
    others: Kinds,
    kind: Kind,
}

impl Model for Kinds {
    ghost use Rattle.std.specs.Prelude.{List, length};
    ghost use Rattle.state_stack.specs.declared.kinds.Kind.{Kind as KindOf};

    ghost Value = { List KindOf };

    ghost use Rattle.state_stack.specs.KindLists.{kinds};

    ghost view = { λ a. kinds a.first };

    ghost size = { length };

    ghost use Rattle.std.proofs.Common.{arith};

    ghost size_decreases = { λ a h. Prim.grind arith };
}

impl Kinds {
    /// No kinds. It takes no memory.
    pub(crate) fn new() -> Kinds
        ensures { result ≡ [] }
    {
        Kinds {
            first: KindLink::Nothing,
        }
    }

    /// The first kind, and the others.
    pub fn first_and_others(&self) -> Option<(Kind, &Kinds)>
        ensures { MatchOption result (self.now ≡ []) (λ p. self.now ≡ p.0 ∷ p.1.now) }
    {
        match &self.first {
            KindLink::Nothing => None,
            KindLink::On(node) => Some((node.kind, &node.others)),
        }
    }

    /// The same kinds, in the same list.
    fn copy(&self) -> Result<Kinds, Memory>
        ensures { IfOk result (λ k. k ≡ self.now) }
    {
        match &self.first {
            KindLink::Nothing => Ok(Kinds::new()),
            KindLink::On(node) => {
                let node = node.clone()?;
                Ok(Kinds {
                    first: KindLink::On(node),
                })
            }
        }
    }

    fn has(&self, kind: Kind) -> bool
        ensures { result ≡ has self.now kind }
    {
        match &self.first {
            KindLink::Nothing => false,
            KindLink::On(node) => same_kind(node.kind, kind) || node.others.has(kind),
        }
    }

    fn on(alloc: Global, others: Kinds, kind: Kind) -> Result<Kinds, Memory>
        ensures { IfOk result (λ k. k ≡ kind ∷ others) }
    {
        let node = Rc::new(alloc, KindNode { others, kind })?;
        Ok(Kinds {
            first: KindLink::On(node),
        })
    }

    /// These and that of one more frame.
    #[tactic(auto, using(crate::proofs::EnderLaws::or_other))]
    pub(crate) fn over(&self, alloc: Global, frame: &Frame) -> Result<Kinds, Memory>
        ensures own { IfOk result (λ k. is_of k frame.now ≡ true) }
        ensures kept { IfOk result
            (λ k. (f : FrameRules) → is_of self.now f ≡ true → is_of k f ≡ true) }
    {
        let kind = kind_of(frame);
        if self.has(kind) {
            return self.copy();
        }
        Kinds::on(alloc, self.copy()?, kind)
    }
}

fn same_kind(a: Kind, b: Kind) -> bool
    ensures { result ≡ same_kind a b }
{
    a.item.0 == b.item.0 && a.in_area == b.in_area
}

fn kind_of(frame: &Frame) -> Kind
    ensures { result ≡ kind_of frame.now }
{
    Kind {
        item: frame.item,
        in_area: is_area(frame.part),
    }
}

fn is_area(part: Part) -> bool
    ensures { result ≡ is_area part }
{
    match part {
        Part::StartArea => true,
        Part::EndArea => true,
        Part::Body => false,
        Part::Keyword => false,
    }
}
