ghost use Rattle.std.specs.Prelude.{◌≡◌, ◌<◌, ◌≤◌, [], max, length, is_some, IfOk, IfNone, OnSome};
ghost use Rattle.std.specs.Option.{option_copied};
ghost use Rattle.std.specs.Bool.{OnTrue, OnFalse};
ghost use Rattle.answer_cache.specs.Cache.{empty_cache, asked_in, answer_in, with_entries, used, kept, without, newest};
ghost use Rattle.answer_cache.specs.Cache.{Recalls};
ghost use Rattle.answer_cache.specs.Limits.{most_entries};

use crate::hashing::TextHasher;
use crate::keys::key_of;
use bucket_eval::Verdict;
use cynara_keys::{Name, Question};
use lru::LruCache;
use std::alloc::{AllocError, Global};
use std::hash::BuildHasherDefault;
use std::marker::Model;
use std::num::NonZeroUsize;
use wire_messages::PackedVerdict;

/// Verdicts with the sessions and questions that they answer, the most recently used first, and the greatest commit
/// that the client was told of. An entry takes some 200 bytes, those of its four names and those of its verdict's
/// texts.
#[derive(Drop)]
pub struct AnswerCache {
    alloc: Global,
    held: LruCache<Vec<u8>, PackedVerdict, BuildHasherDefault<TextHasher>>,
    told: u64,
    // No entry is of a commit below this one.
    least: u64,
}

impl Model for AnswerCache {
    ghost use Rattle.answer_cache.specs.Cache.{Cache};
    ghost use Rattle.answer_cache.specs.parts.Keys.{entries_of, AreEntries};

    ghost Value = { Cache };

    ghost view = { λ cache. record {
      entries = entries_of (λ key. key.items) cache.held.entries;
      most = cache.held.cap;
      told = cache.told;
    } };

    ghost invariant = { λ cache. AreEntries (λ key. key.items) cache.least cache.held.entries };
}

impl AnswerCache {
    /// A cache of at most so many entries, 1 to 4,096, without any, told of nothing. Takes the room for their places.
    pub fn new(alloc: Global, entries: u32) -> Result<AnswerCache, AllocError>
        requires some { 0 < entries }
        requires most { entries ≤ most_entries }
        ensures { IfOk result (λ cache. cache ≡ empty_cache entries) }
    {
        let most = NonZeroUsize::new(entries as usize).unwrap();
        Ok(AnswerCache {
            alloc,
            held: LruCache::with_hasher(alloc, most, BuildHasherDefault::new())?,
            told: 0,
            least: u64::MAX,
        })
    }

    /// The commit was acknowledged: no entry below it is an answer from now on.
    pub fn tell(&mut self, commit: u64)
        ensures { self.new ≡ record self.old { told = max self.old.told commit } }
    {
        self.told = self.told.max(commit);
    }

    /// The greatest commit that the client was told of, 0 before any.
    pub fn told(&self) -> u64
        ensures { result ≡ self.now.told }
    {
        self.told
    }

    /// How many entries there are.
    pub fn len(&self) -> usize
        ensures count { result ≡ length self.now.entries }
        ensures fits { length self.now.entries ≤ self.now.most }
    {
        self.held.len()
    }

    /// Whether there is an entry under the text, which is a session, a client, a user and a privilege with a space
    /// between each two, that is not older than what the client was told. It is then the most recently used. One
    /// look-up, and no memory; a text that is not made so has no entry.
    pub fn recall(&mut self, text: &[u8]) -> bool
        ensures { Recalls result text.now self.old self.new }
    {
        if self.told > self.least {
            // An entry may be older than what was told.
            return self.recall_fresh(text);
        }
        self.held.promote(text)
    }

    fn recall_fresh(&mut self, text: &[u8]) -> bool
        ensures { Recalls result text.now self.old self.new }
    {
        let Some(verdict) = self.held.peek(text) else {
            return false;
        };
        if verdict.commit() < self.told {
            return false;
        }
        self.held.promote(text)
    }

    /// Whether there is an entry for the question in this session that is not older than what the client was told. It
    /// is then the most recently used, and `newest` gives its verdict. Takes no memory.
    pub fn has_answer(&mut self, session: &Name, question: &Question) -> bool
        ensures answer { result ≡ is_some (answer_in (asked_in session.now question.now) self.old) }
        ensures first { OnTrue result (self.new ≡ used (asked_in session.now question.now) self.old) }
        ensures same { OnFalse result (self.new ≡ self.old) }
    {
        let key = key_of(session, question);
        self.recall(key.as_slice())
    }

    /// The verdict of the entry for the question in this session, by value, exactly where `has_answer` says that there
    /// is one.
    pub fn answer(&mut self, session: &Name, question: &Question) -> Option<Verdict>
        ensures answer { result ≡ answer_in (asked_in session.now question.now) self.old }
        ensures first { OnSome result (self.new ≡ used (asked_in session.now question.now) self.old) }
        ensures same { IfNone result (self.new ≡ self.old) }
    {
        let key = key_of(session, question);
        let Some(held) = self.held.peek(key.as_slice()) else {
            return None;
        };
        let verdict = held.verdict();
        if verdict.commit < self.told {
            return None;
        }
        self.held.promote(key.as_slice());
        Some(verdict)
    }

    /// The verdict of the entry that was used last, or none where there is no entry.
    pub fn newest(&self) -> Option<&PackedVerdict>
        ensures { option_copied result ≡ newest self.now }
    {
        let Some((_, verdict)) = self.held.peek_mru() else {
            return None;
        };
        Some(verdict)
    }

    /// Keeps a copy of the verdict as that of the question in this session, in place of an older one, as the most
    /// recently used; the least recently used goes where there would be too many. Says whether it was kept: want of
    /// memory leaves the cache without an entry for the question in this session.
    pub fn keep(&mut self, session: &Name, question: &Question, verdict: &PackedVerdict) -> bool
        ensures kept { OnTrue result
            (self.new ≡ kept (asked_in session.now question.now) verdict.now self.old) }
        ensures unkept { OnFalse result (self.new ≡ without (asked_in session.now question.now) self.old) }
    {
        self.keep_verdict(session, question, &verdict.verdict())
    }

    /// The same of a verdict by value.
    pub fn keep_verdict(&mut self, session: &Name, question: &Question, verdict: &Verdict) -> bool
        ensures kept { OnTrue result
            (self.new ≡ kept (asked_in session.now question.now) verdict.now self.old) }
        ensures unkept { OnFalse result (self.new ≡ without (asked_in session.now question.now) self.old) }
    {
        let key = key_of(session, question);
        // What is known of every cache: no key is there twice.
        let _count = self.held.len();
        self.held.pop(key.as_slice());
        let Ok(key) = Vec::from_slice(self.alloc, key.as_slice()) else {
            return false;
        };
        let Ok(packed) = PackedVerdict::pack(self.alloc, verdict) else {
            return false;
        };
        self.least = lower(self.least, verdict.commit);
        let Ok(_) = self.held.put(key, packed) else {
            return false;
        };
        true
    }

    /// Lets all entries go. What the client was told stays.
    pub fn clear(&mut self)
        ensures { self.new ≡ with_entries [] self.old }
    {
        self.held.clear();
        self.least = u64::MAX;
    }
}

fn lower(least: u64, commit: u64) -> u64
    ensures first { result ≤ least }
    ensures second { result ≤ commit }
{
    if least < commit {
        return least;
    }
    commit
}
