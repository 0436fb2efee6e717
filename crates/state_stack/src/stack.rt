//! Stacks of frames that share their tails.
ghost use Rattle.std.specs.Prelude.{◌≡◌, ◌==◌, ◌<◌, ◌≤◌, ◌↔◌, ◌-◌, ◌&&◌, [], ◌∷◌, ◌++◌, map, length, take, reverse, slice_get, Some, IfOk, IsErrOf, IsTrue, MatchOption, true};
ghost use Rattle.paint_rules.specs.States.{nearer_frame};
ghost use Rattle.state_stack.specs.Enders.{have_enders};
ghost use Rattle.state_stack.specs.Kinds.{have_kinds};
ghost use Rattle.state_stack.specs.declared.stack.StackError.TheVariants as cause;

use crate::{Enders, Frame, Kinds};
use std::alloc::{AllocError, AllocFailed, Global};
use std::marker::Model;
use std::rc::Rc;
use syn_base::Memory;

/// The most frames that a stack holds (this profile).
pub const MOST_FRAMES: usize = 1000;

/// Why a frame was not pushed.
#[derive(Clone, Copy, Debug, PartialEq, Eq)]
pub enum StackError {
    /// The stack has as many frames as it may have.
    TooDeep,
    Memory,
}

impl From<Memory> for StackError {
    ghost use Rattle.state_stack.specs.declared.stack.StackError.TheVariants as cause;

    ghost from_gives = { λ _ e. e ≡ cause.Memory };

    fn from(_refused: Memory) -> StackError {
        StackError::Memory
    }
}

/// The frames of the items that are open, the bottom one first.
#[cycle(stack)]
#[derive(Drop)]
pub struct Stack {
    len: usize,
    // each frame is settled
    settled: bool,
    enders: Enders,
    top: Link,
}

#[cycle(stack)]
#[derive(Drop)]
enum Link {
    Bottom,
    On(Rc<Node>),
}

#[cycle(stack)]
#[derive(Drop)]
struct Node {
    below: Stack,
    frame: Frame,
    // of this frame and those below
    kinds: Kinds,
}

impl Model for Stack {
    ghost use Rattle.std.specs.Prelude.{◌≡◌, ◌≤◌, List, length, true};
    ghost use Rattle.paint_rules.specs.Frames.{Frame as FrameRules};

    ghost Value = { List FrameRules };

    ghost use Rattle.state_stack.specs.Frames.{frames, kinds};
    ghost use Rattle.state_stack.specs.Settled.{all_settled};
    ghost use Rattle.state_stack.specs.Enders.{have_enders};
    ghost use Rattle.state_stack.specs.Kinds.{have_kinds};

    ghost view = { λ a. frames a.top };

    ghost invariant = { λ a. (a.len ≡ length (frames a.top)) × (a.len ≤ 1000)
        × (a.settled ≡ all_settled (frames a.top)) × (have_enders a.enders (frames a.top) ≡ true)
        × (have_kinds (kinds a.top) (frames a.top) ≡ true) };

    ghost size = { length };

    ghost use Rattle.std.proofs.Common.{arith, length-append};

    ghost size_decreases = { λ a h. Prim.grind (arith, length-append) };
}

impl Stack {
    /// No frames. It takes no memory.
    pub fn new() -> Stack
        ensures { result ≡ [] }
    {
        Stack {
            len: 0,
            settled: true,
            enders: Enders::Nothing,
            top: Link::Bottom,
        }
    }

    /// How many frames there are.
    pub fn len(&self) -> usize
        ensures count { result ≡ length self.now }
        ensures most { result ≤ 1000 }
    {
        self.len
    }

    /// The items of the frames that have a known end, as far as the stack knows them.
    pub fn enders(&self) -> Enders
        ensures { have_enders result self.now ≡ true }
    {
        self.enders
    }

    /// The kinds of the frames, if there are any.
    pub fn kinds(&self) -> Option<&Kinds>
        ensures { MatchOption result (self.now ≡ []) (λ k. have_kinds k.now self.now ≡ true) }
    {
        match &self.top {
            Link::Bottom => None,
            Link::On(node) => Some(&node.kinds),
        }
    }

    /// The last frame.
    pub fn top(&self) -> Option<&Frame>
        ensures { MatchOption result (self.now ≡ [])
            (λ f. Some f.now ≡ slice_get self.now (length self.now - 1)) }
    {
        match &self.top {
            Link::Bottom => None,
            Link::On(node) => Some(&node.frame),
        }
    }

    /// The frame at `i`, from the bottom.
    pub fn frame(&self, i: usize) -> &Frame
        requires { i < length self.now }
        ensures { Some result.now ≡ slice_get self.now i }
    {
        match &self.top {
            Link::Bottom => unreachable!(),
            Link::On(node) => if i + 1 == self.len {
                &node.frame
            } else {
                node.below.frame(i)
            },
        }
    }

    #[inline(always)]
    #[tactic(auto, using(crate::proofs::SettledLaws::all_settled_on))]
    fn on(alloc: Global, below: Stack, frame: Frame) -> Result<Stack, Memory>
        requires { length below < 1000 }
        ensures { IfOk result (λ s. s ≡ below ++ frame ∷ []) }
    {
        let len = below.len + 1;
        let settled = below.settled && frame.is_settled();
        let enders = below.enders.over(&frame);
        let kinds = kinds_over(alloc, &below, &frame)?;
        let node = Rc::new(
            alloc,
            Node {
                below,
                frame,
                kinds,
            },
        )?;
        Ok(Stack {
            len,
            settled,
            enders,
            top: Link::On(node),
        })
    }

    /// The stack with this frame on top.
    pub fn push(&self, alloc: Global, frame: Frame) -> Result<Stack, StackError>
        ensures pushed { IfOk result (λ s. s ≡ self.now ++ frame ∷ []) }
        ensures too_deep { IsErrOf result cause.TooDeep ↔ (length self.now ≡ 1000) }
    {
        if self.len == MOST_FRAMES {
            return Err(StackError::TooDeep);
        }
        let below = self.copy()?;
        Ok(Stack::on(alloc, below, frame)?)
    }

    /// An equal stack, which shares its frames.
    pub fn copy(&self) -> Result<Stack, Memory>
        ensures { IfOk result (λ s. s ≡ self.now) }
    {
        match &self.top {
            Link::Bottom => Ok(Stack::new()),
            Link::On(node) => {
                let node = node.clone()?;
                Ok(Stack {
                    len: self.len,
                    settled: self.settled,
                    enders: self.enders,
                    top: Link::On(node),
                })
            }
        }
    }

    /// The frames below the last one.
    pub fn below(&self) -> &Stack
        requires { 0 < length self.now }
        ensures is { result.now ≡ take (length self.now - 1) self.now }
        ensures room { length result.now < 1000 }
    {
        match &self.top {
            Link::Bottom => self,
            Link::On(node) => {
                let below = &node.below;
                let _len = below.len();
                below
            }
        }
    }

    /// The last frame, and the frames below it.
    #[tactic(auto, using(crate::proofs::StackLaws::top_of))]
    pub fn top_and_below(&self) -> Option<(&Frame, &Stack)>
        ensures { MatchOption result (reverse self.now ≡ [])
            (λ p. (reverse self.now ≡ p.0.now ∷ reverse p.1.now) × (length p.1.now < 1000)) }
    {
        match self.top() {
            None => None,
            Some(top) => Some((top, self.below())),
        }
    }

    /// The stack with this frame on top, where there is room.
    #[inline(always)]
    #[tactic(auto, using(crate::proofs::StackLaws::reverse_on))]
    pub fn with_top(&self, alloc: Global, frame: Frame) -> Result<Stack, Memory>
        requires { length self.now < 1000 }
        ensures { IfOk result (λ s. reverse s ≡ frame ∷ reverse self.now) }
    {
        let below = self.copy()?;
        Stack::on(alloc, below, frame)
    }

    /// The stack without its last frame, which shares the others.
    pub fn pop(&self) -> Result<Stack, Memory>
        requires { 0 < length self.now }
        ensures { IfOk result (λ s. s ≡ take (length self.now - 1) self.now) }
    {
        self.below().copy()
    }

    /// Whether the frames are the same.
    pub fn same(&self, other: &Stack) -> bool
        ensures { IsTrue result ↔ (self.now ≡ other.now) }
    {
        match &self.top {
            Link::Bottom => other.len == 0,
            Link::On(node) => match &other.top {
                Link::Bottom => false,
                Link::On(others) => {
                    node.frame.same(&others.frame) && node.below.same(&others.below)
                }
            },
        }
    }

    /// The stack as the next line sees it. It shares the longest bottom part whose frames stay
    /// the same.
    pub(crate) fn nearer(&self, alloc: Global) -> Result<Stack, Memory>
        ensures { IfOk result (λ s. s ≡ map nearer_frame self.now) }
    {
        match &self.top {
            Link::Bottom => Ok(Stack::new()),
            Link::On(node) => {
                if self.settled {
                    return self.copy();
                }
                let below = node.below.nearer(alloc)?;
                let frame = node.frame.nearer()?;
                Stack::on(alloc, below, frame)
            }
        }
    }
}

/// The kinds of the frames of a stack, and that of one more frame.
fn kinds_over(alloc: Global, below: &Stack, frame: &Frame) -> Result<Kinds, Memory>
    ensures { IfOk result (λ k. have_kinds k (below.now ++ frame.now ∷ []) ≡ true) }
{
    match below.kinds() {
        None => Kinds::new().over(alloc, frame),
        Some(kinds) => Ok(kinds.over(alloc, frame)?),
    }
}
