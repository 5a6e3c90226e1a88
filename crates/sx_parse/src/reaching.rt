// Joining what is pending to the operand behind it.
ghost use Rattle.std.specs.Prelude.{◌≡◌, ◌++◌, reverse, IfOk};
ghost use Rattle.sx_parse.specs.Flat as flat;
ghost use Rattle.sx_parse.specs.Flat.{seen};

use crate::frames::{Frame, Shape};
use crate::levels::{casting_level, level, prefix_floor, prefix_level};
use crate::nodes::Node;
use crate::reader::Reader;
use std::alloc::AllocError;

/// The least level of what may stand behind a frame.
fn frame_floor(frame: Frame) -> u8
    ensures { result ≡ flat.frame_floor frame }
{
    match frame {
        Frame::Pending(operator) => level(operator) + 1,
        Frame::Signed(operator) => prefix_floor(operator),
        Frame::More(_) | Frame::Branch | Frame::Otherwise => 1,
        Frame::Binding { .. } | Frame::Body { .. } => 1,
        _ => 0,
    }
}

/// Whether an operand of this shape fits at a level by itself, as a whole that nothing stands before.
pub(crate) fn reaches(pattern: bool, floor: u8, shape: Shape) -> bool
    ensures { result ≡ flat.reaches pattern floor shape }
{
    match shape {
        Shape::Root => floor <= 14 && (!pattern || floor == 0),
        Shape::Cast { casting, .. } => floor <= casting_level(casting),
        _ => true,
    }
}

/// What a frame makes of the operand behind it, if its rule is of the level or a later one.
fn joins(floor: u8, frame: Frame) -> Option<Node>
    ensures { result ≡ flat.joins floor frame }
{
    match frame {
        Frame::Pending(operator) if floor <= level(operator) => Some(Node::Binary(operator)),
        Frame::More(_) if floor == 0 => Some(Node::Comma),
        Frame::Signed(operator) if floor <= prefix_level(operator) => Some(Node::Prefix(operator)),
        Frame::Otherwise if floor <= 1 => Some(Node::Choice),
        Frame::Body { binder, name, .. } if floor <= 1 => Some(Node::Bind(binder, name)),
        _ => None,
    }
}

/// How many operands commas join once a frame is joined. There are fewer than 2^32.
fn count_behind(frame: Frame) -> u64
    ensures { result ≡ flat.count_behind frame }
{
    match frame {
        Frame::More(operands) => operands.saturating_add(1),
        _ => 1,
    }
}

/// How many things are open once a frame is joined.
fn depth_behind(frame: Frame, depth: u64) -> u64
    ensures { result ≡ flat.depth_behind frame depth }
{
    match frame {
        Frame::Otherwise | Frame::Body { .. } => depth.saturating_sub(1),
        _ => depth,
    }
}

impl Reader {
    /// The least level of what may stand here.
    pub fn floor(&self) -> u8
        ensures { result ≡ flat.floor (seen self.now).frames }
    {
        match self.frames.as_slice().last() {
            None => 0,
            Some(frame) => frame_floor(*frame),
        }
    }

    fn join(&mut self, frame: Frame, node: Node) -> Result<(), AllocError>
        ensures { IfOk result (λ _. seen self.new ≡ flat.join (seen self.old) frame node) }
    {
        self.nodes.push(node)?;
        self.depth = depth_behind(frame, self.depth);
        Ok(())
    }

    /// Joins everything pending of a level or a later one, and says how many operands commas join then.
    pub fn reach(&mut self, floor: u8, mut operands: u64) -> Result<u64, AllocError>
        ensures { IfOk result
            (λ count. flat.joined (seen self.new) count ≡ flat.joined_at floor (seen self.old) operands) }
    {
        while let Some(frame) = self.frames.pop() {
            let Some(node) = joins(floor, frame) else {
                self.frames.push(frame)?;
                return Ok(operands);
            };
            self.join(frame, node)?;
            operands = count_behind(frame);
        }
        Ok(operands)
    }
}
