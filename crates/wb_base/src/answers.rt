//! Answers to a questionnaire.
ghost use Rattle.std.specs.Prelude.{◌≡◌, ◌<◌, [], length, filter, not, None, OnOk, OnErr, slice_get, Some};
ghost use Rattle.std.specs.Option.{option_copied};
ghost use Rattle.std.specs.Ordering.{nat_cmp};
ghost use Rattle.std.specs.Cmp.Lexicographic.{slice_cmp};
ghost use Rattle.wb_list.specs.Keyed.{IsAscending, insert_item};
ghost use Rattle.wb_base.specs.AnswerList.{answer_to, id_of};

use crate::Text;
use std::alloc::Global;
use std::marker::Model;
use wb_list::{ItemTest, Items, Memory, Sorted, TryClone};

/// An answer.
#[derive(Drop, PartialEq, Eq)]
pub enum Given {
    Text(Text),
    List(Items<Text>),
    Flag(bool),
    Whole(i64),
    /// A file: its name, and its bytes in base64 (RFC 4648, section 4), which JSON has under `data`.
    File { name: Text, content: Text },
}

impl TryClone for Given {
    fn try_clone(&self) -> Result<Given, Memory> {
        Ok(match self {
            Given::Text(text) => Given::Text(text.try_clone()?),
            Given::List(texts) => Given::List(texts.try_clone()?),
            Given::Flag(flag) => Given::Flag(*flag),
            Given::Whole(whole) => Given::Whole(*whole),
            Given::File { name, content } => Given::File {
                name: name.try_clone()?,
                content: content.try_clone()?,
            },
        })
    }
}

/// Answers, seen as the list of field ids with what was given, in byte order of distinct ids.
#[derive(Drop)]
pub struct Answers {
    entries: Sorted<(Text, Given)>,
}

impl Model for Answers {
    ghost use Rattle.std.specs.Prelude.{ℕ, List};
    ghost use Rattle.wb_base.specs.declared.answers.Given.{Given as Answer};

    ghost Value = { List (List ℕ × Answer) };

    ghost view = { λ a. a.entries.items };
}

impl Answers {
    /// No answer. It takes no memory.
    pub fn new(alloc: Global) -> Answers
        ensures { result ≡ [] }
    {
        Answers {
            entries: Sorted::new(alloc),
        }
    }

    /// How many answers there are.
    pub fn len(&self) -> usize
        ensures { result ≡ length self.now }
    {
        self.entries.len()
    }

    /// The answer at a place, counted from 0 in byte order of the ids.
    pub fn get(&self, at: usize) -> (&Text, &Given)
        requires { at < length self.now }
        ensures { slice_get self.now at ≡ Some (result.0.now, result.1.now) }
    {
        let entry = self.entries.get(at);
        (&entry.0, &entry.1)
    }

    /// All answers in byte order of their ids.
    pub fn as_slice(&self) -> &[(Text, Given)]
        ensures all { result.now ≡ self.now }
        ensures ascending { IsAscending (slice_cmp nat_cmp) id_of self.now }
    {
        self.entries.as_slice()
    }

    /// The answer to a field.
    pub fn find(&self, id: &Text) -> Option<&Given>
        ensures { option_copied result ≡ answer_to self.now id.now }
    {
        match self.entries.find(id) {
            Some(entry) => Some(&entry.1),
            None => None,
        }
    }

    /// Adds the answer to a field that has none.
    pub fn insert(&mut self, id: Text, given: Given) -> Result<(), Memory>
        requires { answer_to self.old id ≡ None }
        ensures ok { OnOk result (self.new ≡ insert_item (slice_cmp nat_cmp) id_of self.old (id, given)) }
        ensures err { OnErr result (self.new ≡ self.old) }
    {
        self.entries.reserve(1)?;
        self.entries.add((id, given));
        Ok(())
    }

    /// Drops the answers that pass a test. It takes no memory.
    pub fn drop_passing<X: ItemTest<(Text, Given)>>(&mut self, test: &X)
        ensures { self.new ≡ filter (λ entry. not (X.passes test.now entry)) self.old }
    {
        self.entries.drop_passing(test);
    }
}

impl TryClone for Answers {
    fn try_clone(&self) -> Result<Answers, Memory> {
        Ok(Answers {
            entries: self.entries.try_clone()?,
        })
    }
}
