// The texts of policies' keys, numbered in the order in which they came.
ghost use Rattle.std.specs.Prelude.{◌≡◌, ◌<◌, ◌++◌, ◌∷◌, [], IfOk, IfSome, None, map};
ghost use Rattle.std.specs.List.{position};
ghost use Rattle.cynara_keys.specs.Text.{same_text};
ghost use Rattle.bucket_eval.specs.parts.Numbers.{KeepsNumbers, if_small, number_of};

use indexmap::IndexSet;
use std::alloc::{AllocError, Global};
use std::marker::Model;
use std::sync::Arc;

/// How many texts at most stand behind those that are shared.
const MOST_BEHIND: usize = 1024;

/// Texts, each with a number: those in front, which other lists may share, and then those behind.
#[derive(Drop)]
pub struct Names {
    front: Arc<IndexSet<Vec<u8>>>,
    behind: IndexSet<Vec<u8>>,
}

impl Model for Names {
    ghost use Rattle.std.specs.Prelude.{List, ℕ, map, ◌++◌};
    ghost use Rattle.std.specs.Arc.{arc_value};

    ghost Value = { List (List ℕ) };

    ghost view = { λ names. map (λ text. text.items) ((arc_value names.front).keys ++ names.behind.keys) };
}

impl Names {
    /// No texts.
    pub fn new(alloc: Global) -> Result<Names, AllocError> {
        let front = Arc::new(alloc, IndexSet::new(alloc))?;
        Ok(Names {
            front,
            behind: IndexSet::new(alloc),
        })
    }

    /// The same texts, to be shared by those who take them up again. None may be shared yet, or nothing is done.
    pub fn settled(self, alloc: Global) -> Result<Names, AllocError>
        ensures { IfOk result (λ names. names ≡ self) }
    {
        if !self.front.is_empty() {
            return Ok(self);
        }
        let Names { front, behind } = self;
        drop(front);
        let front = Arc::new(alloc, behind)?;
        Ok(Names {
            front,
            behind: IndexSet::new(alloc),
        })
    }

    /// The same texts once more: those in front are shared, and those behind are copied.
    pub fn again(&self) -> Result<Names, AllocError>
        ensures { IfOk result (λ names. names ≡ self.now) }
    {
        let front = Arc::try_clone(&self.front)?;
        let behind = self.behind.clone()?;
        Ok(Names { front, behind })
    }

    /// Whether so many texts stand behind those that are shared that all should be numbered anew.
    pub fn is_long(&self) -> bool {
        self.behind.len() > MOST_BEHIND
    }

    /// The number of the text, which is given one if it has none, if that has 18 bits. Those of other texts stay.
    pub fn add(&mut self, alloc: Global, text: &[u8]) -> Result<Option<u64>, AllocError>
        ensures is { IfOk result (λ number. number ≡ number_of self.new text.now) }
        ensures small { IfOk result (λ number. IfSome number (λ one. one < 262144)) }
        ensures kept { IfOk result (λ number. KeepsNumbers self.old self.new) }
    {
        if let Some(place) = self.place(text) {
            return Ok(small(place));
        }
        let front = self.front.len();
        let behind = self.behind.len();
        let place = front + behind;
        let text = Vec::from_slice(alloc, text)?;
        self.behind.insert(text)?;
        Ok(small(place))
    }

    /// The number of the text, if it has one of 18 bits.
    pub fn number(&self, text: &[u8]) -> Option<u64>
        ensures is { result ≡ number_of self.now text.now }
        ensures small { IfSome result (λ number. number < 262144) }
    {
        let Some(place) = self.place(text) else {
            return None;
        };
        small(place)
    }

    // The place of the text, from 0.
    #[inline(always)]
    fn place(&self, text: &[u8]) -> Option<usize>
        ensures { result ≡ position (same_text text.now) self.now }
    {
        if let Some(place) = self.front.get_index_of(text) {
            return Some(place);
        }
        let Some(place) = self.behind.get_index_of(text) else {
            return None;
        };
        let _ = self.behind.len();
        Some(self.front.len() + place)
    }
}

// The number, if it has 18 bits.
fn small(number: usize) -> Option<u64>
    ensures is { result ≡ if_small number }
    ensures small { IfSome result (λ one. one < 262144) }
{
    if number < 262_144 {
        return Some(number as u64);
    }
    None
}
