// Open trees and spines.
ghost use Rattle.std.specs.Prelude.{◌≡◌, ◌<◌, ◌-◌, ◌^◌, true};
ghost use Rattle.sx_tree.specs.Events.{tree_event};
ghost use Rattle.sx_tree.specs.OpenTree.{MayComeNext};
ghost use Rattle.sx_tree.specs.Places.{Places, put_event};

use crate::notation::{append_word, chars_of, label_of};
use sqlite_items::Items;
use std::alloc::{AllocError, Global};
use sx_names::Names;
use sx_tree::{Attr, Attrs, Chars, Event, Label, Leaf, OpenTree, Space, Spaces, Spine, SpineItem};

// The attributes among the words, each written `NAME=VALUE`.
fn attrs_of(alloc: Global, names: &mut Names, words: &str) -> Result<Attrs, AllocError> {
    let mut attrs = Items::new(alloc);
    for word in words.split_whitespace() {
        if let Some((name, value)) = word.split_once('=')
            && !word.starts_with('~')
        {
            attrs.push(Attr {
                label: label_of(alloc, names, name)?,
                value: chars_of(alloc, value)?,
            })?;
        }
    }
    Ok(attrs)
}

// The namespace declarations among the words, each written `~PREFIX=URI`.
fn spaces_of(alloc: Global, words: &str) -> Result<Spaces, AllocError> {
    let mut spaces = Items::new(alloc);
    for word in words.split_whitespace() {
        if let Some(word) = word.strip_prefix('~') {
            let (prefix, uri) = word.split_once('=').unwrap_or((word, ""));
            spaces.push(Space {
                prefix: chars_of(alloc, prefix)?,
                uri: chars_of(alloc, uri)?,
            })?;
        }
    }
    Ok(spaces)
}

// A start that a case writes as `NAME NAME=VALUE .. ~PREFIX=URI ..`.
fn start_of(alloc: Global, names: &mut Names, text: &str) -> Result<Event, AllocError> {
    let (name, words) = text.split_once(' ').unwrap_or((text, ""));
    Ok(Event::Start {
        label: label_of(alloc, names, name)?,
        attrs: attrs_of(alloc, names, words)?,
        spaces: spaces_of(alloc, words)?,
    })
}

// An instruction that a case writes as `TARGET CONTENT`.
fn instruction_of(alloc: Global, text: &str) -> Result<Event, AllocError> {
    let (target, content) = text.split_once(' ').unwrap_or((text, ""));
    Ok(Event::Pi {
        target: chars_of(alloc, target)?,
        content: chars_of(alloc, content)?,
    })
}

// An event: `(` and a start, `)`, `-` and a text, `?` and an instruction, or `C`.
fn event_of(alloc: Global, names: &mut Names, text: &str) -> Result<Event, AllocError> {
    if let Some(start) = text.strip_prefix('(') {
        return start_of(alloc, names, start);
    }
    if let Some(text) = text.strip_prefix('-') {
        return Ok(Event::Text(chars_of(alloc, text)?));
    }
    if let Some(instruction) = text.strip_prefix('?') {
        return instruction_of(alloc, instruction);
    }
    if text == ")" {
        return Ok(Event::End);
    }
    Ok(Event::Close)
}

// How many nodes are open behind an event.
fn level_behind(level: u64, event: &Event) -> u64
    requires { level < 2 ^ 64 - 1 }
    ensures { (t : Places) → level ≡ t.level → result ≡ (put_event t (tree_event event.now)).level }
{
    match event {
        Event::Start { .. } => level + 1,
        Event::End => level.saturating_sub(1),
        Event::Text(_) => level,
        Event::Pi { .. } => level,
        Event::Close => level.saturating_sub(1),
    }
}

/// An open tree, how many of its nodes are open, and whether its last event is a text.
#[derive(Drop)]
pub struct Growing {
    pub tree: OpenTree,
    level: u64,
    behind_text: bool,
    ghost known: { level ≡ tree.places.level },
}

impl Growing {
    /// A document node.
    pub fn new(alloc: Global, limit: u32) -> Result<Growing, AllocError> {
        Ok(Growing {
            tree: OpenTree::new(alloc, limit as u64)?,
            level: 1,
            behind_text: false,
        })
    }

    // Whether an event may come next.
    fn allows(&self, event: &Event) -> bool
        ensures follows { result ≡ true
            → MayComeNext self.now.tree.places (tree_event event.now) }
        ensures room { result ≡ true → self.now.level < 2 ^ 64 - 1 }
    {
        if self.level == 0 || self.level == u64::MAX {
            return false;
        }
        match event {
            Event::Start { .. } => true,
            Event::End => self.level > 1,
            Event::Text(text) => !self.behind_text && !text.as_str().is_empty(),
            Event::Pi { .. } => true,
            Event::Close => self.level == 1,
        }
    }

    // Adds an event, where it may come next.
    fn add(&mut self, event: &Event) -> Result<&'static str, AllocError> {
        if !self.allows(event) {
            return Ok("misplaced");
        }
        match self.tree.push(event)? {
            Ok(()) => {
                self.level = level_behind(self.level, event);
                self.behind_text = matches!(event, Event::Text(_));
                Ok("ok")
            }
            Err(_) => Ok("full"),
        }
    }
}

// Adds an event that a case writes so.
fn added(
    alloc: Global,
    names: &mut Names,
    growing: &mut Growing,
    text: &str,
) -> Result<&'static str, AllocError> {
    let event = event_of(alloc, names, text)?;
    growing.add(&event)
}

/// Adds events, and gives the answers.
pub fn all_added(
    alloc: Global,
    names: &mut Names,
    growing: &mut Growing,
    events: &str,
) -> Result<String, AllocError> {
    let mut out = String::new(alloc);
    for text in events.split(" | ") {
        append_word(&mut out, added(alloc, names, growing, text)?)?;
    }
    Ok(out)
}

// Whether a tree can be closed.
fn ending(tree: OpenTree) -> &'static str {
    if tree.close().is_ok() {
        "closed"
    } else {
        "open"
    }
}

// The answers, and whether the tree can be closed then.
fn grown(alloc: Global, mut growing: Growing, events: &str) -> Result<String, AllocError> {
    let mut names = sx_names::new(alloc);
    let mut out = all_added(alloc, &mut names, &mut growing, events)?;
    let Growing { tree, .. } = growing;
    append_word(&mut out, ending(tree))?;
    Ok(out)
}

/// What the pushes of events are answered with, and whether the tree can be closed behind them.
pub fn tree(alloc: Global, text: &str) -> Result<String, AllocError> {
    let (limit, events) = text.split_once(' ').unwrap_or((text, ""));
    let limit = limit.parse::<u32>().unwrap_or(0);
    grown(alloc, Growing::new(alloc, limit)?, events)
}

// What a push of an entry is answered with: how many entries there are, or that there is no room.
fn pushed(alloc: Global, spine: &mut Spine, item: SpineItem) -> Result<String, AllocError> {
    match spine.push(item) {
        Ok(()) => format!(in alloc; "{}", spine.len()),
        Err(_) => String::from_str(alloc, "full"),
    }
}

// The entry that is taken away.
fn popped(alloc: Global, spine: &mut Spine) -> Result<String, AllocError> {
    if spine.len() == 0 {
        return String::from_str(alloc, "none");
    }
    match spine.pop() {
        SpineItem::Root => String::from_str(alloc, "root"),
        SpineItem::Element { label, .. } => String::from_str(alloc, label.prefix.as_str()),
    }
}

// The answer to one word.
fn branched(alloc: Global, spine: &mut Spine, word: &str) -> Result<String, AllocError> {
    if word == "root" {
        return pushed(alloc, spine, SpineItem::Root);
    }
    if word == "pop" {
        return popped(alloc, spine);
    }
    if word == "leaf" {
        spine.set_leaf(Some(Leaf::Text(Chars::new(alloc))));
        return format!(in alloc; "{}", spine.len());
    }
    let label = Label {
        number: 0,
        prefix: Chars::copy(alloc, word)?,
    };
    let attrs = Items::new(alloc);
    pushed(alloc, spine, SpineItem::Element { label, attrs })
}

// The answer to the last of so many words, each the same.
fn repeated(alloc: Global, spine: &mut Spine, word: &str) -> Result<String, AllocError> {
    let (count, word) = word.split_once('×').unwrap_or(("1", word));
    let mut answer = String::new(alloc);
    for _ in 0..count.parse::<u32>().unwrap_or(0) {
        answer = branched(alloc, spine, word)?;
    }
    Ok(answer)
}

/// The answers to words in turn.
pub fn all_branched(alloc: Global, spine: &mut Spine, words: &str) -> Result<String, AllocError> {
    let mut out = String::new(alloc);
    for word in words.split(' ') {
        let answer = repeated(alloc, spine, word)?;
        append_word(&mut out, answer.as_str())?;
    }
    Ok(out)
}

/// What a spine answers to words in turn.
pub fn spine(alloc: Global, text: &str) -> Result<String, AllocError> {
    let mut spine = Spine::new();
    all_branched(alloc, &mut spine, text)
}
