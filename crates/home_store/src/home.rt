ghost use Rattle.std.specs.Prelude.{◌≡◌, ◌↔◌, IfOk, OnOk, OnErr, IsTrue};
ghost use Rattle.std.specs.List.{All};
ghost use Rattle.page_messages.specs.Fitting.{BodyFits, PartFits, PartsFit};

use crate::places::{first_place, places, word_at};
use crate::words::{merge_at, start_word, sum_or_old};
use machine_code::Code;
use outside::Words;
use page_messages::{Body, Msg, Part};
use page_words::Config;
use std::alloc::{AllocError, Global};
use std::marker::Model;

/// The home of a node's pages: its part of the backing store. Contracts see what each shared word of these pages holds. The words of
/// the program's last page behind its last word are kept too.
///
/// The words stand in one list, which has places for this node's pages alone.
#[derive(Debug, Drop)]
pub struct Home {
    node: u32,
    config: Config,
    /// How many words the program shares.
    shared: u32,
    words: Vec<i64>,
}

impl Model for Home {
    ghost use Rattle.home_store.specs.Home.{Home as Seen};
    ghost use Rattle.home_store.specs.Places.{IsStore};

    ghost Value = { Seen };

    ghost view = { λ h. record { node = h.node; config = h.config; shared = h.shared; words = h.words.items } };

    ghost invariant = { λ h. IsStore h.config h.shared h.node h.words.items };
}

impl Home {
    ghost use Rattle.home_store.specs.Home.{HasPage, HasWord, IsFirst, IsFor, answer_to, HasChanged, held, left_by, left_by_add, left_by_part, left_by_parts, words_of};

    /// The home at this node: the pages of the code's shared words that lie there, each word at its start word.
    pub fn new(alloc: Global, node: u32, config: &Config, code: &Code) -> Result<Home, AllocError>
        ensures { IfOk result (λ home. IsFirst config.now code.now node home) }
    {
        let shared = code.words();
        let places = places(node, config, shared);
        let mut words = Vec::with_capacity(alloc, places)?;
        for place in 0..places {
            words.push(start_word(code, word_at(config, node, place)))?;
        }
        Ok(Home {
            node,
            config: *config,
            shared,
            words,
        })
    }

    /// Whether this home holds the page.
    pub fn has(&self, page: u32) -> bool
        ensures { IsTrue result ↔ HasPage self.now page }
    {
        let first = u64::from(page) * u64::from(self.config.page_words);
        first < u64::from(self.shared) && self.config.home_of(page) == self.node
    }

    /// The words of the page as they now are.
    pub fn load(&self, alloc: Global, page: u32) -> Result<Words, AllocError>
        requires { HasPage self.now page }
        ensures { IfOk result (λ words. words ≡ words_of self.now page) }
    {
        let first = first_place(&self.config, page);
        let mut words = Words::new(alloc);
        for word in &self.words[first..first + self.config.page_words as usize] {
            words.push(*word)?;
        }
        Ok(words)
    }

    /// Sets the words that the part marks, and leaves all others.
    pub fn store(&mut self, part: &Part)
        requires fits { PartFits self.old.config part.now }
        requires page { HasPage self.old part.now.page }
        ensures { HasChanged (left_by_part self.old.config part.now) self.old self.new }
    {
        let first = first_place(&self.config, part.page);
        merge_at(&mut self.words, first, part.mask, part.words.items());
    }

    /// Adds to the word, and gives its old value. Where the sum is no `i64` the word stays as it was.
    pub fn add(&mut self, word: u32, addend: i64) -> i64
        requires { HasWord self.old word }
        ensures old { result ≡ held self.old word }
        ensures words { HasChanged (left_by_add word (held self.old word) addend) self.old self.new }
    {
        let page = self.config.page_of(word);
        let place = first_place(&self.config, page) + (word % self.config.page_words) as usize;
        let old = self.words[place];
        self.words[place] = sum_or_old(old, addend);
        old
    }

    /// Answers a Fetch with the page as it now is, and a Reconcile, whose marked words it stores, with one Ack for all its parts. Where
    /// memory is refused all is as before.
    pub fn serve(&mut self, alloc: Global, msg: &Msg) -> Result<Msg, AllocError>
        requires fits { BodyFits self.old.config msg.now.body }
        requires pages { IsFor self.old msg.now.body }
        ensures reply { IfOk result (λ reply. reply ≡ record { sender = msg.now.receiver; receiver = msg.now.sender; body = answer_to self.old msg.now.body }) }
        ensures words { OnOk result (HasChanged (left_by self.old.config msg.now.body) self.old self.new) }
        ensures err { OnErr result (self.new ≡ self.old) }
    {
        Ok(Msg {
            sender: msg.receiver,
            receiver: msg.sender,
            body: self.answer(alloc, &msg.body)?,
        })
    }

    fn answer(&mut self, alloc: Global, body: &Body) -> Result<Body, AllocError>
        requires fits { BodyFits self.old.config body.now }
        requires pages { IsFor self.old body.now }
        ensures reply { IfOk result (λ reply. reply ≡ answer_to self.old body.now) }
        ensures words { OnOk result (HasChanged (left_by self.old.config body.now) self.old self.new) }
        ensures err { OnErr result (self.new ≡ self.old) }
    {
        match body {
            Body::Fetch { page } => Ok(Body::Page {
                page: *page,
                words: self.load(alloc, *page)?,
            }),
            Body::Reconcile { parts } => {
                self.store_all(parts.items());
                Ok(Body::Ack)
            }
            _ => unreachable!(),
        }
    }

    fn store_all(&mut self, parts: &[Part])
        requires fits { PartsFit self.old.config parts.now }
        requires pages { All (λ part. HasPage self.old part.page) parts.now }
        ensures { HasChanged (left_by_parts self.old.config parts.now) self.old self.new }
    {
        for part in parts {
            self.store(part);
        }
    }
}

#[cfg(test)]
mod tests;
