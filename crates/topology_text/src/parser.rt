//! What is parsed of a topology text so far, and which token may come next.

ghost use Rattle.std.specs.Prelude.{slice_get, Ok, Err, ◌≡◌, ◌<◌, ◌≤◌, ◌+◌, length, Some, OnOk, IfOk, IfErr, map, string_bytes};
ghost use Rattle.overlay_setup.specs.declared.topology.TheConstants.{NODE_LIMIT};
ghost use Rattle.std.proofs.Props.{props};
ghost use Rattle.std.specs.Result.{ForOk};
ghost use Rattle.std.specs.List.{IsDistinct};
ghost use Rattle.std.specs.String.{string_eq};
ghost use Rattle.topology_text.specs.Statements.{is_parent, is_child, at_node, as_parent, child_of};
ghost use Rattle.text_lines.specs.Parsing.{and_then, IsErrorOf};

use crate::tokens::Token;
use crate::whole::{parents_of, whole_error};
use indexmap::IndexSet;
use overlay_setup::{NODE_LIMIT, Topology};
use std::alloc::Global;
use text_lines::{Quantity, Reason, TextError};

/// A node, as far as it is known.
#[derive(Debug, Clone, Copy)]
pub struct Node {
    /// The line of its name's first appearance.
    pub line: u64,
    /// Its parent's number.
    pub parent: Option<u32>,
    /// Whether it has begun a statement.
    pub is_parent: bool,
}

/// Where the next token stands.
#[derive(Debug, Clone, Copy)]
pub enum ParserState {
    /// A statement may begin.
    Outside,
    /// `=>` must follow this parent.
    AfterParent(u32),
    /// A child of this parent must follow.
    AfterArrow(u32),
    /// A child of this parent, or `;`, must follow.
    AfterChild(u32),
}

/// Names and nodes by number, and where the next token stands in its statement.
#[derive(Drop)]
pub struct Parser {
    names: IndexSet<String>,
    nodes: Vec<Node>,
    state: ParserState,
    ghost within_limit: { length names.keys ≤ NODE_LIMIT },
    ghost distinct: { IsDistinct string_eq names.keys } by { Prim.hlevel props },
}

impl Parser {
    ghost use Rattle.topology_text.specs.ParserViews.{parser_view};
    ghost use Rattle.topology_text.specs.TokenViews.{token_view};
    ghost use Rattle.overlay_setup.specs.Names.{number_of};
    ghost use Rattle.topology_text.specs.declared.parser.ParserState.TheVariants.{Outside};
    ghost use Rattle.topology_text.specs.Statements.{nothing_parsed, appear, with_piece, take_end, take_arrow};
    ghost use Rattle.topology_text.specs.Statements.{take_semicolon, take_name, add_parent, add_child};
    ghost use Rattle.topology_text.specs.Invariants.{ParserInvariant};
    ghost use Rattle.topology_text.specs.Whole.{whole, nodes_of};
    ghost use Rattle.overlay_setup.specs.Topologies.{IsTopology};

    /// A parser before the first token.
    pub fn new(alloc: Global) -> Parser
        ensures { parser_view result ≡ nothing_parsed }
    {
        Parser {
            names: IndexSet::new(alloc),
            nodes: Vec::new(alloc),
            state: ParserState::Outside,
        }
    }

    // The number of a name that appears on a line.
    fn number(&mut self, line_number: u64, name: &str) -> Result<u32, TextError>
        ensures ok { OnOk result (appear (parser_view self.old) line_number name.now ≡ Ok (parser_view self.new)) }
        ensures number { IfOk result (λ n. number_of name.now (parser_view self.new).names ≡ Some n) }
        ensures err { IsErrorOf result (appear (parser_view self.old) line_number name.now) }
    {
        if let Some(number) = self.names.get_index_of(name) {
            return Ok(number as u32);
        }
        let number = self.names.len();
        if number >= NODE_LIMIT as usize {
            return Err(TextError::over(line_number, Quantity::Nodes, NODE_LIMIT));
        }
        let alloc = *self.nodes.allocator();
        self.nodes.push(Node {
            line: line_number,
            parent: None,
            is_parent: false,
        })?;
        let _ = self.names.insert_full(String::from_str(alloc, name)?)?;
        Ok(number as u32)
    }

    /// Takes the next token.
    pub fn take(&mut self, line_number: u64, token: &Token<'_>) -> Result<(), TextError>
        ensures ok { OnOk result (
            with_piece (parser_view self.old) line_number (token_view token.now) ≡ Ok (parser_view self.new)
            ) }
        ensures err { IsErrorOf result (with_piece (parser_view self.old) line_number (token_view token.now)) }
    {
        match token {
            Token::Arrow => self.take_arrow(line_number),
            Token::Semicolon => self.take_semicolon(line_number),
            Token::Name(name) => {
                let number = self.number(line_number, name)?;
                self.take_name(line_number, number)
            }
        }
    }

    // `=>`
    fn take_arrow(&mut self, line_number: u64) -> Result<(), TextError>
        ensures ok { OnOk result (
            take_arrow (parser_view self.old) line_number self.old.state ≡ Ok (parser_view self.new)
            ) }
        ensures err { IfErr result (λ e. take_arrow (parser_view self.old) line_number self.old.state ≡ Err e) }
    {
        match self.state {
            ParserState::Outside => Err(TextError::bad(line_number, Reason::BadToken)),
            ParserState::AfterParent(parent) => {
                self.state = ParserState::AfterArrow(parent);
                Ok(())
            }
            ParserState::AfterArrow(_) => Err(TextError::bad(line_number, Reason::NoChild)),
            ParserState::AfterChild(_) => Err(TextError::bad(line_number, Reason::NoSemicolon)),
        }
    }

    // `;`
    fn take_semicolon(&mut self, line_number: u64) -> Result<(), TextError>
        ensures ok { OnOk result (
            take_semicolon (parser_view self.old) line_number self.old.state ≡ Ok (parser_view self.new)
            ) }
        ensures err { IfErr result (λ e. take_semicolon (parser_view self.old) line_number self.old.state ≡ Err e) }
    {
        match self.state {
            ParserState::Outside => Err(TextError::bad(line_number, Reason::BadToken)),
            ParserState::AfterParent(_) => Err(TextError::bad(line_number, Reason::NoArrow)),
            ParserState::AfterArrow(_) => Err(TextError::bad(line_number, Reason::NoChild)),
            ParserState::AfterChild(_) => {
                self.state = ParserState::Outside;
                Ok(())
            }
        }
    }

    // A name with its number.
    fn take_name(&mut self, line_number: u64, number: u32) -> Result<(), TextError>
        ensures ok { OnOk result (
            take_name (parser_view self.old) line_number self.old.state number ≡ Ok (parser_view self.new)
            ) }
        ensures err { IfErr result (λ e. take_name (parser_view self.old) line_number self.old.state number ≡ Err e) }
    {
        match self.state {
            ParserState::Outside => self.add_parent(line_number, number),
            ParserState::AfterParent(_) => Err(TextError::bad(line_number, Reason::NoArrow)),
            ParserState::AfterArrow(parent) | ParserState::AfterChild(parent) => {
                self.add_child(line_number, parent, number)
            }
        }
    }

    // A name at the beginning of a statement.
    fn add_parent(&mut self, line_number: u64, number: u32) -> Result<(), TextError>
        ensures ok { OnOk result (add_parent (parser_view self.old) line_number number ≡ Ok (parser_view self.new)) }
        ensures err { IfErr result (λ e. add_parent (parser_view self.old) line_number number ≡ Err e) }
    {
        if is_parent(&self.nodes, number) {
            return Err(TextError::bad(line_number, Reason::SecondLine));
        }
        set_is_parent(&mut self.nodes, number);
        self.state = ParserState::AfterParent(number);
        Ok(())
    }

    // A name among a parent's children.
    fn add_child(&mut self, line_number: u64, parent: u32, number: u32) -> Result<(), TextError>
        ensures ok { OnOk result (
            add_child (parser_view self.old) line_number parent number ≡ Ok (parser_view self.new)
            ) }
        ensures err { IfErr result (λ e. add_child (parser_view self.old) line_number parent number ≡ Err e) }
    {
        if is_child(&self.nodes, number) {
            return Err(TextError::bad(line_number, Reason::SecondParent));
        }
        set_parent(&mut self.nodes, number, parent);
        self.state = ParserState::AfterChild(parent);
        Ok(())
    }

    // The end of the text.
    fn take_end(&self, line_number: u64) -> Result<(), TextError>
        ensures ok { OnOk result (
            take_end (parser_view self.now) line_number self.now.state ≡ Ok (parser_view self.now)
            ) }
        ensures outside { OnOk result ((parser_view self.now).state ≡ Outside) }
        ensures err { IfErr result (λ e. take_end (parser_view self.now) line_number self.now.state ≡ Err e) }
    {
        match self.state {
            ParserState::Outside => Ok(()),
            ParserState::AfterParent(_) => Err(TextError::bad(line_number, Reason::NoArrow)),
            ParserState::AfterArrow(_) => Err(TextError::bad(line_number, Reason::NoChild)),
            ParserState::AfterChild(_) => Err(TextError::bad(line_number, Reason::NoSemicolon)),
        }
    }

    /// The topology of a text that ends on a line, after the checks of the whole text.
    pub fn finish(self, line_number: u64) -> Result<Topology, TextError>
        requires { ForOk (take_end (parser_view self) line_number self.state) ParserInvariant }
        ensures ok { IfOk result (
            λ t. nodes_of (and_then (take_end (parser_view self) line_number self.state) whole) ≡ Ok t
            ) }
        ensures topology { IfOk result (λ t. IsTopology t) }
        ensures err { IsErrorOf result (
            nodes_of (and_then (take_end (parser_view self) line_number self.state) whole)
            ) }
    {
        self.take_end(line_number)?;
        let parents = parents_of(*self.nodes.allocator(), &self.nodes)?;
        if let Some(error) = whole_error(&self.nodes, &parents) {
            return Err(error);
        }
        Ok(Topology::new(self.names, parents)?)
    }
}

// Whether a node has begun a statement.
fn is_parent(nodes: &[Node], number: u32) -> bool
    ensures { result ≡ is_parent (slice_get nodes.now number) }
{
    match nodes.get(number as usize) {
        Some(node) => node.is_parent,
        None => false,
    }
}

// Whether a node has a parent.
fn is_child(nodes: &[Node], number: u32) -> bool
    ensures { result ≡ is_child (slice_get nodes.now number) }
{
    match nodes.get(number as usize) {
        Some(node) => node.parent.is_some(),
        None => false,
    }
}

// Notes that a node has begun a statement.
fn set_is_parent(nodes: &mut Vec<Node>, number: u32)
    ensures { nodes.new.items ≡ at_node nodes.old.items number as_parent }
{
    let at = number as usize;
    if at < nodes.len() {
        nodes[at].is_parent = true;
    }
}

// Notes a node's parent.
fn set_parent(nodes: &mut Vec<Node>, number: u32, parent: u32)
    ensures { nodes.new.items ≡ at_node nodes.old.items number (child_of parent) }
{
    let at = number as usize;
    if at < nodes.len() {
        nodes[at].parent = Some(parent);
    }
}
