// What was read, token by token.
ghost use Rattle.std.specs.Prelude.{◌≡◌, ◌<◌, ◌^◌, IfOk, length};
ghost use Rattle.sx_parse.specs.Flat as flat;
ghost use Rattle.sx_parse.specs.Flat.{seen, outcome};
ghost use Rattle.sx_parse.specs.Reading.{IsReadAs};

use crate::frames::{Frame, Mode, Shape};
use crate::lexemes::Lexeme;
use crate::nodes::Node;
use crate::roles::Role;
use sqlite_items::Items;
use std::alloc::{AllocError, Global};

/// What the tokens that were read come to.
#[derive(Drop)]
pub(crate) struct Reader {
    /// what is open and what is pending, the innermost last
    pub frames: Items<Frame>,
    /// the operands that are complete
    pub nodes: Items<Node>,
    /// what the tokens are
    pub roles: Items<Role>,
    /// how many things are open: never more than tokens, of which there are fewer than 2^32
    pub depth: u64,
    /// whether a pattern is read
    pub pattern: bool,
    pub mode: Mode,
}

/// What is read of a list of tokens.
#[derive(Drop)]
pub(crate) struct Reading {
    /// operands before what joins them; none at a fault
    pub nodes: Items<Node>,
    /// what each token is; at a fault, each before it
    pub roles: Items<Role>,
    /// the number of the token at which no reading goes on, counted from 0; where all the tokens begin one, how many there are
    pub fault: Option<u32>,
}

/// Puts an item in the place of the last one.
pub(crate) fn replace_last<T: Drop>(items: &mut Items<T>, item: T)
    ensures { items.new ≡ flat.replaced items.old item }
{
    let count = items.len();
    if count > 0 {
        items.set(count - 1, item);
    }
}

impl Reader {
    /// Nothing is read yet.
    pub fn new(alloc: Global, pattern: bool) -> Reader
        ensures { seen result ≡ flat.start pattern }
    {
        Reader {
            frames: Items::new(alloc),
            nodes: Items::new(alloc),
            roles: Items::new(alloc),
            depth: 0,
            pattern,
            mode: Mode::Want,
        }
    }

    /// Whether a token stands in a pattern outside predicates.
    pub fn in_pattern(&self) -> bool
        ensures { result ≡ flat.in_pattern (seen self.now) }
    {
        self.pattern && self.depth == 0
    }

    /// An operand of one token is complete.
    pub fn have(&mut self, node: Node, role: Role, shape: Shape) -> Result<bool, AllocError>
        ensures { IfOk result
            (λ goes. outcome goes (seen self.new) ≡ flat.have (seen self.old) node role shape) }
    {
        self.nodes.push(node)?;
        self.roles.push(role)?;
        self.mode = Mode::Have(shape, 1);
        Ok(true)
    }

    /// A token that stands before an operand.
    pub fn expect(&mut self, frame: Frame, role: Role) -> Result<bool, AllocError>
        ensures { IfOk result
            (λ goes. outcome goes (seen self.new) ≡ flat.expect (seen self.old) frame role) }
    {
        self.frames.push(frame)?;
        self.roles.push(role)?;
        self.mode = Mode::Want;
        Ok(true)
    }

    /// A token after which something else has to come.
    pub fn turn(&mut self, mode: Mode, role: Role) -> Result<bool, AllocError>
        ensures { IfOk result (λ goes. outcome goes (seen self.new)
            ≡ flat.turn (seen self.old) mode role) }
    {
        self.roles.push(role)?;
        self.mode = mode;
        Ok(true)
    }

    /// A token with which something opens.
    pub fn open(&mut self, frame: Frame, mode: Mode) -> Result<bool, AllocError>
        ensures { IfOk result
            (λ goes. outcome goes (seen self.new) ≡ flat.opened (seen self.old) frame mode) }
    {
        let depth = self.depth.saturating_add(1);
        self.frames.push(frame)?;
        self.roles.push(Role::Opens(depth))?;
        self.depth = depth;
        self.mode = mode;
        Ok(true)
    }

    /// A token with which something closes.
    pub fn closed(&mut self, node: Node, role: Role, shape: Shape) -> Result<bool, AllocError>
        ensures { IfOk result
            (λ goes. outcome goes (seen self.new) ≡ flat.closed (seen self.old) node role shape) }
    {
        self.depth = self.depth.saturating_sub(1);
        self.have(node, role, shape)
    }

    fn stopped(self, alloc: Global, fault: u32) -> Reading
        ensures { result ≡ flat.stopped fault (seen self).roles }
    {
        let Reader { roles, .. } = self;
        let nodes = Items::new(alloc);
        let fault = Some(fault);
        Reading {
            nodes,
            roles,
            fault,
        }
    }

    fn given(self) -> Reading
        ensures { result ≡ flat.given (seen self) }
    {
        let Reader { nodes, roles, .. } = self;
        let fault = None;
        Reading {
            nodes,
            roles,
            fault,
        }
    }

    fn ended(mut self, alloc: Global, count: u32) -> Result<Reading, AllocError>
        ensures { IfOk result (λ reading. reading ≡ flat.answer count (flat.ended (seen self))) }
    {
        if self.end()? {
            Ok(self.given())
        } else {
            Ok(self.stopped(alloc, count))
        }
    }
}

fn run(alloc: Global, pattern: bool, lexemes: &[Lexeme]) -> Result<Reading, AllocError>
    requires { length lexemes.now < 2 ^ 32 }
    ensures { IfOk result (λ reading. reading ≡ flat.run (flat.start pattern) 0 lexemes.now) }
{
    let mut reader = Reader::new(alloc, pattern);
    for (at, lexeme) in lexemes.iter().enumerate() {
        if !reader.read(*lexeme)? {
            return Ok(reader.stopped(alloc, at as u32));
        }
    }
    reader.ended(alloc, lexemes.len() as u32)
}

/// Reads fewer than 2^32 tokens of an expression, or of a pattern: the one derivation that they have, as its list and the roles of
/// the tokens, or the first token at which no reading goes on, with the roles of those before it (XPath 3.1, A.1; XSLT 3.0, 5.5).
pub(crate) fn read(alloc: Global, pattern: bool, lexemes: &[Lexeme]) -> Result<Reading, AllocError>
    requires { length lexemes.now < 2 ^ 32 }
    ensures { IfOk result (λ r. IsReadAs pattern lexemes.now r.nodes r.roles r.fault) }
{
    run(alloc, pattern, lexemes)
}
