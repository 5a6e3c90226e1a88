// What trees say of their nodes.
use crate::branches::{Growing, all_added, all_branched};
use crate::notation::{label_shown, show};
use std::alloc::{AllocError, Global};
use sx_names::Names;
use sx_tree::{Chars, Label, LabelView, Node, Spine, Tree};

/// Appends a node: its place, or that of its element and its number behind a point.
pub fn show_node(out: &mut String, n: Node) -> Result<(), AllocError> {
    let text = match n {
        Node::At(k) => format!(in *out.allocator(); "{k}")?,
        Node::Attr(k, i) => format!(in *out.allocator(); "{k}.{i}")?,
    };
    out.push_str(text.as_str())
}

// Appends a node behind a space, or a hyphen where there is none.
fn show_relative(out: &mut String, n: Option<Node>) -> Result<(), AllocError> {
    out.push(' ')?;
    match n {
        Some(n) => show_node(out, n),
        None => out.push('-'),
    }
}

fn show_label(out: &mut String, names: &Names, label: LabelView<'_>) -> Result<(), AllocError> {
    let label = Label {
        number: label.number,
        prefix: Chars::copy(*out.allocator(), label.prefix)?,
    };
    out.push(' ')?;
    label_shown(out, names, &label)
}

// Appends what a tree says of a node: its kind, its name or target, its characters in brackets, its parent, its first child, its
// next sibling, and whether it is open.
fn show_seen<T: Tree>(out: &mut String, names: &Names, t: &T, n: Node) -> Result<(), AllocError> {
    if !out.is_empty() {
        out.push_str("; ")?;
    }
    show_node(out, n)?;
    let kind = format!(in *out.allocator(); " {:?}", t.kind(n))?;
    out.push_str(kind.as_str())?;
    if let Some(label) = t.label(n) {
        show_label(out, names, label)?;
    }
    if let Some(target) = t.target(n) {
        out.push_str(" ?")?;
        show(out, target)?;
    }
    out.push_str(" [")?;
    show(out, t.text(n))?;
    out.push(']')?;
    show_relative(out, t.parent(n))?;
    show_relative(out, t.first_child(n))?;
    show_relative(out, t.next_sibling(n))?;
    if t.is_open(n) {
        out.push_str(" open")?;
    }
    Ok(())
}

// Appends what a tree says of all its nodes, and of one that it has not.
fn show_all<T: Tree>(out: &mut String, names: &Names, t: &T) -> Result<(), AllocError> {
    for k in 0..=t.place_count() {
        show_seen(out, names, t, Node::At(k))?;
        for i in 0..t.attr_count(Node::At(k)) {
            show_seen(out, names, t, Node::Attr(k, i))?;
        }
    }
    Ok(())
}

/// What an open tree says of all its nodes.
pub fn tree(alloc: Global, events: &str) -> Result<String, AllocError> {
    let mut names = sx_names::new(alloc);
    let mut growing = Growing::new(alloc, u32::MAX)?;
    all_added(alloc, &mut names, &mut growing, events)?;
    let mut out = String::new(alloc);
    show_all(&mut out, &names, &growing.tree)?;
    Ok(out)
}

/// What a spine says of all its nodes behind words in turn.
pub fn spine(alloc: Global, words: &str) -> Result<String, AllocError> {
    let names = sx_names::new(alloc);
    let mut spine = Spine::new();
    all_branched(alloc, &mut spine, words)?;
    let mut out = String::new(alloc);
    show_all(&mut out, &names, &spine)?;
    Ok(out)
}
