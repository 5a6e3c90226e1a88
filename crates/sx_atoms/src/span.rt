// Spans of positions.
ghost use Rattle.std.specs.Prelude.{◌≡◌, ℕ, ◌+◌, ◌<◌, ◌≤◌, ◌&&◌, nat_le, nat_lt};
ghost use Rattle.std.specs.Prelude.{pos, int_le};
ghost use Rattle.sx_atoms.specs.Positions.{selects, span_after, span_counted};

use std::marker::Model;

// No position; those from one on; and as many from there on as a count says, none where that is below 1.
#[derive(Clone, Copy)]
enum Chosen {
    Nowhere,
    From(i128),
    Counted(i128, i128),
}

/// The positions, counted from 1, that the numbers of `substring` and `subsequence` select (XPath functions and operators
/// 3.1, 5.4.3 and 14.1.8). Contracts see a span.
#[derive(Drop)]
pub struct Positions {
    chosen: Chosen,
}

impl Model for Positions {
    ghost use Rattle.sx_atoms.specs.Positions.{Span, span_in};

    ghost Value = { Span };

    ghost view = { λ p. span_in p.chosen };
}

// How many of the first `length` positions are below one.
fn below(position: i128, length: usize) -> usize
    ensures within { result ≤ length }
    ensures exact { (p : ℕ) → p < length → int_le position (pos (p + 1)) ≡ nat_le result p }
{
    position.saturating_sub(1).clamp(0, length as i128) as usize
}

impl Positions {
    /// Those from a number on; none where there is no number.
    pub fn from_first(first: Option<i128>) -> Positions
        ensures { result ≡ span_after first }
    {
        let chosen = match first {
            Some(first) => Chosen::From(first),
            None => Chosen::Nowhere,
        };
        Positions { chosen }
    }

    /// As many as a second number says, from the first one on; none where there are not both.
    pub fn counted(first: Option<i128>, count: Option<i128>) -> Positions
        ensures { result ≡ span_counted first count }
    {
        let chosen = match (first, count) {
            (Some(first), Some(count)) => Chosen::Counted(first, count),
            _ => Chosen::Nowhere,
        };
        Positions { chosen }
    }

    /// Whether a position, counted from 1, is selected.
    pub fn has(&self, position: u64) -> bool
        ensures { result ≡ selects self.now position }
    {
        let place = position as i128;
        match self.chosen {
            Chosen::Nowhere => false,
            Chosen::From(first) => first <= place,
            Chosen::Counted(first, count) => first <= place && place < first.saturating_add(count),
        }
    }

    /// The places, counted from 0, at which those of `length` items stand whose positions are selected: from the first number
    /// on and before the second one.
    pub fn range(&self, length: usize) -> (usize, usize)
        ensures order { result.0 ≤ result.1 }
        ensures within { result.1 ≤ length }
        ensures exact { (p : ℕ) → p < length
            → selects self.now (p + 1) ≡ (nat_le result.0 p && nat_lt p result.1) }
    {
        match self.chosen {
            Chosen::Nowhere => (0, 0),
            Chosen::From(first) => (below(first, length), length),
            Chosen::Counted(first, count) => {
                let end = below(first.saturating_add(count), length);
                (below(first, length).min(end), end)
            }
        }
    }
}
